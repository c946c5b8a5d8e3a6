// Words of command lines, and the jobs that they say.
use crate::{Mode, WordsFault, run_words};
use std::alloc::{AllocError, Global};
use std::test::Fail;

fn list(alloc: Global, words: &[&str]) -> Result<Vec<String>, AllocError> {
    let mut list = Vec::new(alloc);
    for word in words {
        list.push(String::from_str(alloc, word)?)?;
    }
    Ok(list)
}

#[test]
fn words_say_jobs(rt: HostRuntime) -> Result<(), Fail> {
    let table: [(&[&str], Option<(Mode, &str, Option<u64>, u64, u64)>); 17] = [
        (&["run", "r"], Some((Mode::Run, "r", None, 1, 1000))),
        (
            &["run", "-", "--late", "5"],
            Some((Mode::Run, "-", Some(5), 1, 1000)),
        ),
        (&["--late=010", "check", "r"], None),
        (
            &["--late=010", "scratch", "r"],
            Some((Mode::Scratch, "r", Some(10), 1, 1000)),
        ),
        (
            &["check", "--", "--late"],
            Some((Mode::Check, "--late", None, 1, 1000)),
        ),
        (
            &["drill", "--seed", "0", "r", "--lines=1000000"],
            Some((Mode::Drill, "r", None, 0, 1_000_000)),
        ),
        (&["drill", "r", "--lines", "1000001"], None),
        (&["drill", "r", "--seed", "4294967296"], None),
        (&["run", "r", "--late", "4611686018427387904"], None),
        (&["run", "r", "--late", "1", "--late", "1"], None),
        (&["run", "r", "--late", "+5"], None),
        (&["run", "r", "--late="], None),
        (&["run", "r", "--seed", "1"], None),
        (
            &["held", "--late=2", "r"],
            Some((Mode::Held, "r", Some(2), 1, 1000)),
        ),
        (&["held", "r", "--lines", "3"], None),
        (&["run"], None),
        (&["run", "r", "--help"], None),
    ];
    for (words, said) in table {
        let words = list(rt.alloc(), words)?;
        match run_words(rt.alloc(), &words) {
            Ok(job) => {
                let found = (job.mode, job.rules.as_str(), job.late, job.seed, job.lines);
                assert_eq!(rt; Some(found), said);
            }
            Err(fault) => {
                assert_eq!(rt; fault, WordsFault::Usage);
                assert_eq!(rt; said, None);
            }
        }
    }
    Ok(())
}
