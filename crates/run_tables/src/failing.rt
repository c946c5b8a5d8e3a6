// Streams of which one call fails, one call after the other, and streams that never fail.
use crate::fixtures::{AB, CALM, Setting, list, run_over};
use detect_writer::ok_text;
use etalis_cli::{Status, run};
use flow_ports::{MemShelf, MemSink, SureSink, SureSource};
use std::alloc::{AllocError, Global};
use std::process::Abort;
use std::test::Fail;

// A line with its line feed, and its reply.
type Row = (&'static [u8], &'static [u8]);

// Two copies of an event, a detection, and what is left of it when both are taken back.
const COPIES: [Row; 5] = [
    (b"+ 1 a(7)\n", b"ok 1\n"),
    (b"+ 1 a(7)\n", b"ok 2\n"),
    (b"+ 2 b(7)\n", b"+ 1 2 ab(7)\nok 3\n"),
    (b"- 1 a(7)\n", b"ok 4\n"),
    (b"- 1 a(7)\n", b"- 1 2 ab(7)\nok 5\n"),
];

const WINDOW: &[u8] = b"w <- (a SEQ b) WITHIN 4.\n";

// A row that is held up to the last bound at which a partner may come.
const HELD: [Row; 3] = [
    (b"+ 6 a\n", b"ok 1\nheld 2 1\n"),
    (b"! 10\n", b"ok 2\nheld 1 0\n"),
    (b"+ 10 b\n", b"+ 6 10 w\nok 3\nheld 7 1\n"),
];

// A source that gives a byte at a time.
const BY_BYTES: Setting<'static> = Setting {
    pieces: &[1; 48],
    ..CALM
};

// The lines of rows one after the other.
fn lines(alloc: Global, rows: &[Row]) -> Result<Vec<u8>, AllocError> {
    let mut bytes = Vec::new(alloc);
    for row in rows {
        bytes.extend_from_slice(row.0)?;
    }
    Ok(bytes)
}

// The replies to the lines that end within so many bytes.
fn replies_within(alloc: Global, rows: &[Row], bytes: usize) -> Result<Vec<u8>, AllocError> {
    let mut out = Vec::new(alloc);
    let mut left = bytes;
    for row in rows {
        if left < row.0.len() {
            return Ok(out);
        }
        left -= row.0.len();
        out.extend_from_slice(row.1)?;
    }
    Ok(out)
}

// So many of the replies, or all and the end.
fn first_replies(
    alloc: Global,
    rows: &[Row],
    end: &[u8],
    number: usize,
) -> Result<Vec<u8>, AllocError> {
    let mut out = Vec::new(alloc);
    for row in rows.iter().take(number) {
        out.extend_from_slice(row.1)?;
    }
    if number > rows.len() {
        out.extend_from_slice(end)?;
    }
    Ok(out)
}

// Each call of the shelf fails once: the one that gives the file, and the one at its end. A third isn't made.
fn shelf_fails(
    rt: &(impl AllocGlobal + Abort),
    words: &[&str],
    rules: &[u8],
    rows: &[Row],
    end: &[u8],
) -> Result<(), Fail> {
    let input = lines(rt.alloc(), rows)?;
    for call in 1..4 {
        let setting = Setting {
            shelf_fails: call,
            ..BY_BYTES
        };
        let ran = run_over(rt.alloc(), words, rules, &input, setting)?;
        if call < 3 {
            assert_eq!(rt; ran.status, Status::ReadFault);
            assert_eq!(rt; ran.out.bytes(), b"".as_slice());
            assert_eq!(rt;
                ran.notes.bytes(),
                b"etalis: cannot read rules\n".as_slice()
            );
        } else {
            let wanted = first_replies(rt.alloc(), rows, end, rows.len() + 1)?;
            assert_eq!(rt; ran.status, Status::Done);
            assert_eq!(rt; ran.out.bytes(), wanted.as_slice());
            assert_eq!(rt; ran.notes.bytes(), b"".as_slice());
        }
    }
    Ok(())
}

// Each call of the source fails once, behind so many bytes, the call at the end too.
fn source_fails(
    rt: &(impl AllocGlobal + Abort),
    words: &[&str],
    rules: &[u8],
    rows: &[Row],
) -> Result<(), Fail> {
    let input = lines(rt.alloc(), rows)?;
    for taken in 0..input.len() + 1 {
        let setting = Setting {
            input_fails: taken as u64 + 1,
            ..BY_BYTES
        };
        let ran = run_over(rt.alloc(), words, rules, &input, setting)?;
        let wanted = replies_within(rt.alloc(), rows, taken)?;
        assert_eq!(rt; ran.status, Status::ReadFault);
        assert_eq!(rt; ran.out.bytes(), wanted.as_slice());
        assert_eq!(rt;
            ran.notes.bytes(),
            b"etalis: cannot read input\n".as_slice()
        );
    }
    Ok(())
}

// Each call of the output fails once, behind so many others. A reply is one call, and so is the end.
fn output_fails(
    rt: &(impl AllocGlobal + Abort),
    words: &[&str],
    rules: &[u8],
    rows: &[Row],
    end: &[u8],
) -> Result<(), Fail> {
    let input = lines(rt.alloc(), rows)?;
    for calls in 0..rows.len() + 2 {
        let setting = Setting {
            out_fails: calls as u64 + 1,
            ..BY_BYTES
        };
        let ran = run_over(rt.alloc(), words, rules, &input, setting)?;
        let wanted = first_replies(rt.alloc(), rows, end, calls)?;
        assert_eq!(rt; ran.out.bytes(), wanted.as_slice());
        if calls > rows.len() {
            assert_eq!(rt; ran.status, Status::Done);
            assert_eq!(rt; ran.notes.bytes(), b"".as_slice());
        } else {
            assert_eq!(rt; ran.status, Status::WriteFault);
            assert_eq!(rt; ran.notes.bytes(), b"etalis: cannot write\n".as_slice());
        }
    }
    Ok(())
}

#[test]
fn each_fault_of_a_stream_leaves_whole_replies(rt: HostRuntime) -> Result<(), Fail> {
    shelf_fails(&rt, &["run", "r"], AB, &COPIES, b"end 5\n")?;
    shelf_fails(&rt, &["held", "r"], WINDOW, &HELD, b"end 3\n")?;
    source_fails(&rt, &["run", "r"], AB, &COPIES)?;
    source_fails(&rt, &["held", "r"], WINDOW, &HELD)?;
    output_fails(&rt, &["run", "r"], AB, &COPIES, b"end 5\n")?;
    output_fails(&rt, &["held", "r"], WINDOW, &HELD, b"end 3\n")?;
    Ok(())
}

// Each call of the notes fails once, where another stream failed first, or the words or rules are refused: the status stays, nothing
// else is written, and the notes have a first part of theirs. The notes on a rule are three calls; a fourth isn't made.
#[test]
fn notes_that_fail_change_nothing_else(rt: HostRuntime) -> Result<(), Fail> {
    let rows: [(&[&str], &[u8], u64, u64, u64, Status, &[u8]); 6] = [
        (
            &["walk"],
            AB,
            0,
            0,
            0,
            Status::Usage,
            b"etalis: usage: etalis MODE RULES [--late N] [--seed N] [--lines N]\n",
        ),
        (
            &["run", "r"],
            b"x <- x.",
            0,
            0,
            0,
            Status::RulesRefused,
            b"etalis: rules: rule 1: cycle\n",
        ),
        (
            &["run", "r"],
            AB,
            1,
            0,
            0,
            Status::ReadFault,
            b"etalis: cannot read rules\n",
        ),
        (
            &["run", "r"],
            AB,
            0,
            1,
            0,
            Status::ReadFault,
            b"etalis: cannot read input\n",
        ),
        (
            &["run", "r"],
            AB,
            0,
            0,
            1,
            Status::WriteFault,
            b"etalis: cannot write\n",
        ),
        (
            &["held", "r"],
            WINDOW,
            0,
            0,
            1,
            Status::WriteFault,
            b"etalis: cannot write\n",
        ),
    ];
    for row in rows {
        for call in 1..5 {
            let setting = Setting {
                shelf_fails: row.2,
                input_fails: row.3,
                out_fails: row.4,
                notes_fail: call,
                ..CALM
            };
            let ran = run_over(rt.alloc(), row.0, row.1, b"+ 6 a\n", setting)?;
            assert_eq!(rt; ran.status, row.5);
            assert_eq!(rt; ran.out.bytes(), b"".as_slice());
            assert!(rt; row.6.starts_with(ran.notes.bytes()));
            assert_eq!(rt; ran.notes.bytes().is_empty(), call == 1);
            if call == 4 {
                assert_eq!(rt; ran.notes.bytes(), row.6);
            }
        }
    }
    Ok(())
}

// Six hundred events, and one that each rule joins to all of them: more visits than a turn makes. The replies before it, all of one
// piece, are the first call of the output, before the second turn; what the long work tells is the second.
#[test]
fn replies_go_out_before_long_work(rt: HostRuntime) -> Result<(), Fail> {
    let rules = b"p(X) <- a(X) AND b. q(X) <- a(X) AND b.";
    let mut input = Vec::new(rt.alloc());
    let mut replies = Vec::new(rt.alloc());
    for number in 1..601u64 {
        let line = format!(in rt.alloc(); "+ 1 a({number})\n")?;
        input.extend_from_slice(line.as_bytes())?;
        ok_text(number, &mut replies)?;
    }
    input.extend_from_slice(b"+ 2 b\n")?;
    let setting = Setting {
        out_fails: 2,
        ..CALM
    };
    let ran = run_over(rt.alloc(), &["run", "r"], rules, &input, setting)?;
    assert_eq!(rt; ran.status, Status::WriteFault);
    assert!(rt; ran.out.bytes() == replies.as_slice());
    assert_eq!(rt; ran.notes.bytes(), b"etalis: cannot write\n".as_slice());
    Ok(())
}

// A source and an output that never fail, as a caller has them whose streams are lists of bytes.
#[test]
fn streams_that_never_fail_end_well(rt: HostRuntime) -> Result<(), Fail> {
    let words = list(rt.alloc(), &["run", "r"])?;
    let mut files = Vec::new(rt.alloc());
    files.push((String::from_str(rt.alloc(), "r")?, AB.to_vec(rt.alloc())?))?;
    let mut shelf = MemShelf::new(files, Vec::new(rt.alloc()));
    let mut source = SureSource::new(lines(rt.alloc(), &COPIES)?);
    let mut out = SureSink::new();
    let mut notes = MemSink::new(rt.alloc(), 64, Vec::new(rt.alloc()))?;
    let status = run(
        rt.alloc(),
        &words,
        &mut shelf,
        &mut source,
        &mut out,
        &mut notes,
    );
    assert_eq!(rt; status, Status::Done);
    assert_eq!(rt; notes.bytes(), b"".as_slice());
    Ok(())
}
