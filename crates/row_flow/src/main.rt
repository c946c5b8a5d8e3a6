//! A benchmark of the stores of rows: a flow of rows comes into a store of goals and a table of counts, finds partners there and
//! goes again.
//!
//!     row_flow ROWS HELD ORDER
//!
//! So many rows come, one after the other, and once more than HELD are held, the row that came first goes. ORDER is `order`, `late`
//! or `key`. At the end it writes `rows R found F held H`: the rows that came, the partners that they found, the goals that are held.
#![tactic(auto)]

mod flow;
mod made;
mod words;

use crate::flow::run;
use crate::words::{Job, job_of};
use std::alloc::AllocError;
use std::process::ExitCode;
use std::{env, io};

// The words behind the program's name. A word that isn't UTF-8 is in no form, so that there are no words then.
fn read_words(rt: &HostRuntime) -> Result<Vec<String>, AllocError> {
    let mut words = Vec::new(rt.alloc());
    match env::args(rt) {
        Ok(args) => {
            for word in args.skip(1) {
                words.push(word)?;
            }
        }
        Err(error) => {
            if error.kind() == io::ErrorKind::OutOfMemory {
                return Err(AllocError);
            }
        }
    }
    Ok(words)
}

// The status with which the program ends: 0 where the line was written, 3 where there was no memory, 4 where it can't be written.
fn serve(rt: &HostRuntime, job: Job) -> u8 {
    match run(rt.alloc(), job) {
        Err(AllocError) => {
            let _ = eprintln!(rt; "row_flow: out of memory");
            3
        }
        Ok(tally) => {
            let rows = job.rows;
            let found = tally.found;
            let held = tally.held;
            match println!(rt; "rows {rows} found {found} held {held}") {
                Ok(()) => 0,
                Err(_) => 4,
            }
        }
    }
}

fn main(rt: HostRuntime) -> ExitCode {
    let status = match read_words(&rt) {
        Ok(words) => match job_of(&words) {
            Some(job) => serve(&rt, job),
            None => {
                let _ = eprintln!(&rt; "row_flow: usage: row_flow ROWS HELD order|late|key");
                2
            }
        },
        Err(AllocError) => {
            let _ = eprintln!(&rt; "row_flow: out of memory");
            3
        }
    };
    ExitCode::from(status)
}
