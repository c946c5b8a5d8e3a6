// What the tests of runs take.
use etalis_cli::{Status, run};
use flow_ports::{MemShelf, MemSink, MemSource};
use std::alloc::{AllocError, Global};
use std::process::Abort;
use std::test::Fail;

pub(crate) const AB: &[u8] = b"ab(X) <- a(X) SEQ b(X).\n";

// Which call of each object fails, counted from 1, where 0 is none; and in which pieces the input comes.
#[derive(Clone, Copy)]
pub(crate) struct Setting<'a> {
    pub(crate) pieces: &'a [usize],
    pub(crate) shelf_fails: u64,
    pub(crate) input_fails: u64,
    pub(crate) out_fails: u64,
    pub(crate) notes_fail: u64,
}

pub(crate) const CALM: Setting<'static> = Setting {
    pieces: &[],
    shelf_fails: 0,
    input_fails: 0,
    out_fails: 0,
    notes_fail: 0,
};

// What a run over memory leaves.
#[derive(Drop)]
pub(crate) struct Ran {
    pub(crate) status: Status,
    pub(crate) out: MemSink,
    pub(crate) notes: MemSink,
}

pub(crate) fn list(alloc: Global, words: &[&str]) -> Result<Vec<String>, AllocError> {
    let mut list = Vec::new(alloc);
    for word in words {
        list.push(String::from_str(alloc, word)?)?;
    }
    Ok(list)
}

pub(crate) fn run_over(
    alloc: Global,
    words: &[&str],
    rules: &[u8],
    input: &[u8],
    setting: Setting<'_>,
) -> Result<Ran, AllocError> {
    let words = list(alloc, words)?;
    let file = (String::from_str(alloc, "r")?, rules.to_vec(alloc)?);
    let mut files = Vec::new(alloc);
    files.push(file)?;
    let mut shelf = MemShelf::new(files, [setting.shelf_fails].to_vec(alloc)?);
    let mut source = MemSource::new(
        input.to_vec(alloc)?,
        setting.pieces.to_vec(alloc)?,
        [setting.input_fails].to_vec(alloc)?,
    );
    let mut out = MemSink::new(alloc, 131_072, [setting.out_fails].to_vec(alloc)?)?;
    let mut notes = MemSink::new(alloc, 4096, [setting.notes_fail].to_vec(alloc)?)?;
    let status = run(alloc, &words, &mut shelf, &mut source, &mut out, &mut notes);
    Ok(Ran { status, out, notes })
}

// A run that is done writes this, and no note.
pub(crate) fn writes(
    rt: &(impl AllocGlobal + Abort),
    words: &[&str],
    rules: &[u8],
    input: &[u8],
    wanted: &[u8],
) -> Result<(), Fail> {
    let ran = run_over(rt.alloc(), words, rules, input, CALM)?;
    assert_eq!(rt; ran.status, Status::Done);
    assert_eq!(rt; ran.out.bytes(), wanted);
    assert_eq!(rt; ran.notes.bytes(), b"".as_slice());
    Ok(())
}
