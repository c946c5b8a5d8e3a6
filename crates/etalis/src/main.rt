//! The program: the top call over standard input, output and error, and the files of the system.
#![tactic(auto)]

use etalis_cli::{Status, exit_code, run};
use flow_ports::{FileShelf, FromReader, ToWriter, write_whole};
use std::alloc::AllocError;
use std::process::ExitCode;
use std::{env, io};

// The words behind the program's name. A word that isn't UTF-8 is in no form, so that there are no words then.
fn words(rt: &HostRuntime) -> Result<Vec<String>, AllocError> {
    let mut words = Vec::new(rt.alloc());
    match env::args(rt) {
        Ok(args) => {
            for word in args.skip(1) {
                words.push(word)?;
            }
        }
        Err(error) => {
            if error.kind() == io::ErrorKind::OutOfMemory {
                return Err(AllocError);
            }
        }
    }
    Ok(words)
}

fn main(rt: HostRuntime) -> ExitCode {
    let mut input = FromReader::new(rt.stdin());
    let mut out = ToWriter::new(rt.stdout());
    let mut notes = ToWriter::new(rt.stderr());
    let alloc = rt.alloc();
    let status = match words(&rt) {
        Ok(words) => run(
            alloc,
            &words,
            &mut FileShelf::new(alloc, rt),
            &mut input,
            &mut out,
            &mut notes,
        ),
        Err(AllocError) => {
            let _ = write_whole(&mut notes, b"etalis: out of memory\n");
            Status::Memory
        }
    };
    ExitCode::from(exit_code(status))
}
