// Words and modes: what each writes, what it reads, and the limit of steps.
use crate::fixtures::{AB, CALM, Setting, list, run_over, writes};
use detect_writer::drill_text;
use drill_lines::drill_lines;
use etalis_cli::{Mode, Status, run_words};
use ev_term::{Detection, Event, cmp_terms};
use event_reader::{Input, Line, LineReader, parse_line};
use pattern_meaning::scratch;
use rule_check::{Checked, check};
use rule_parser::parse;
use std::alloc::{AllocError, Global};
use std::cmp::Ordering;
use std::test::Fail;

const AB_ANY: &[u8] = b"ab <- a(_) SEQ b(_).";

const WINDOW: &[u8] = b"w <- (a SEQ b) WITHIN 4.";

const WITHIN: &str = "w(X) <- (a(X) SEQ b(X)) WITHIN 6.";

#[test]
fn words_give_a_job(rt: HostRuntime) -> Result<(), Fail> {
    let words = list(rt.alloc(), &["run", "x"])?;
    match run_words(rt.alloc(), &words) {
        Ok(job) => {
            assert_eq!(rt; job.mode, Mode::Run);
            assert_eq!(rt; job.rules.as_str(), "x");
            assert_eq!(rt; job.late, None);
            Ok(())
        }
        Err(_) => Err(Fail::new("no job")),
    }
}

// Options in any place and with `=`, and what each mode writes.
#[test]
fn words_say_what_is_done(rt: HostRuntime) -> Result<(), Fail> {
    let rows: [(&[&str], &[u8], &[u8], &[u8]); 15] = [
        (
            &["--late=10", "run", "r"],
            AB,
            b"+ 5 b(7)\n+ 3 a(7)\n",
            b"ok 1\n+ 3 5 ab(7)\nok 2\nend 2\n",
        ),
        (
            &["run", "--late", "0010", "--", "r"],
            AB,
            b"+ 9 b(7)\n",
            b"ok 1\nend 1\n",
        ),
        (
            &["check", "r"],
            b"ab( X )<-a(X) SEQ b(X).",
            b"+ 1 a(7)\n",
            b"ab(X) <- a(X) SEQ b(X).\n",
        ),
        (&["check", "r"], b"", b"", b""),
        (
            &["scratch", "r"],
            AB,
            b"+ 1 a(7)\n+ 2 b(7)\n+ 1 a(7",
            b"no 3 syntax 7\n+ 1 2 ab(7)\nend 3\n",
        ),
        (
            &["scratch", "r", "--late", "2"],
            AB,
            b"+ 3 a(7)\n+ 4 b(7)\n+ 9 a(2)\n+ 6 b(7)\n- 9 b(1)\n+ 9 b(7)\n+ 12 b(2)\n# note\n",
            b"no 4 below 7\nno 5 absent\n+ 9 12 ab(2)\n+ 3 4 ab(7)\n+ 3 9 ab(7)\nend 8\n",
        ),
        (
            &["scratch", "r"],
            AB,
            b"+ 1 a(7)\n+ 2 b(7)\nbegin\n- 2 b(7)\n+ 3 b(7)\ncommit\nbegin\n+ 4 b(7)\nbegin\n",
            b"no 9 batch\n+ 1 3 ab(7)\nend 9 open\n",
        ),
        (&["--", "scratch", "r"], AB, b"", b"end 0\n"),
        (
            &["held", "r"],
            WINDOW,
            b"+ 6 a\n! 10\n+ 10 b\n",
            b"ok 1\nheld 2 1\nok 2\nheld 1 0\n+ 6 10 w\nok 3\nheld 7 1\nend 3\n",
        ),
        (
            &["held", "r"],
            WINDOW,
            b"+ 6 a\n! 11\n+ 11 b\n",
            b"ok 1\nheld 2 1\nok 2\nheld 0 0\nok 3\nheld 2 1\nend 3\n",
        ),
        (
            &["held", "r"],
            AB,
            b"+ 1 a(7)\n+ 2 b(7)\n! 3\n",
            b"ok 1\nheld 2 1\n+ 1 2 ab(7)\nok 2\nheld 7 2\nok 3\nheld 2 0\nend 3\n",
        ),
        (
            &["drill", "r", "--seed", "1", "--lines", "4"],
            AB_ANY,
            b"+ 1 a(7)\n",
            b"drill 1 0 5 7\n",
        ),
        (
            &["--lines=4", "drill", "--late", "10", "r"],
            AB_ANY,
            b"",
            b"drill 1 0 5 7\n",
        ),
        (
            &["drill", "r", "--lines=0"],
            AB_ANY,
            b"",
            b"drill 0 0 0 0\n",
        ),
        (&["drill", "r"], b"", b"", b"drill 0 0 0 0\n"),
    ];
    for row in rows {
        writes(&rt, row.0, row.1, row.2, row.3)?;
    }
    Ok(())
}

// A source that fails is noticed where it is read alone.
#[test]
fn some_modes_leave_the_source_alone(rt: HostRuntime) -> Result<(), Fail> {
    let rows: [(&[&str], Status, &[u8]); 5] = [
        (&["run", "r"], Status::ReadFault, b""),
        (&["held", "r"], Status::ReadFault, b""),
        (&["scratch", "r"], Status::ReadFault, b""),
        (&["check", "r"], Status::Done, b"ab <- a(_) SEQ b(_).\n"),
        (
            &["drill", "r", "--lines", "4"],
            Status::Done,
            b"drill 1 0 5 7\n",
        ),
    ];
    for row in rows {
        let setting = Setting {
            input_fails: 1,
            ..CALM
        };
        let ran = run_over(rt.alloc(), row.0, AB_ANY, b"+ 1 a(7)\n", setting)?;
        assert_eq!(rt; ran.status, row.1);
        assert_eq!(rt; ran.out.bytes(), row.2);
    }
    Ok(())
}

// An output that fails before anything went out, and behind the first refusal.
#[test]
fn every_mode_tells_a_failed_output(rt: HostRuntime) -> Result<(), Fail> {
    let rows: [(&[&str], u64, &[u8]); 5] = [
        (&["held", "r"], 2, b"no 1 syntax 0\n"),
        (&["scratch", "r"], 1, b""),
        (&["scratch", "r"], 2, b"no 1 syntax 0\n"),
        (&["check", "r"], 1, b""),
        (&["drill", "r", "--lines", "4"], 1, b""),
    ];
    for row in rows {
        let setting = Setting {
            pieces: &[2],
            out_fails: row.1,
            ..CALM
        };
        let ran = run_over(rt.alloc(), row.0, AB, b"?\n+ 1 a(7)\n", setting)?;
        assert_eq!(rt; ran.status, Status::WriteFault);
        assert_eq!(rt; ran.out.bytes(), row.2);
        assert_eq!(rt; ran.notes.bytes(), b"etalis: cannot write\n".as_slice());
    }
    Ok(())
}

// Appends a rule of so many atoms.
fn push_rule(text: &mut Vec<u8>, atoms: usize) -> Result<(), AllocError> {
    text.extend_from_slice(b"a<-b")?;
    for _atom in 1..atoms {
        text.extend_from_slice(b" AND b")?;
    }
    text.extend_from_slice(b".")?;
    Ok(())
}

// A file of 256 rules, of 128 atoms each but for the last, which has so many.
#[test]
fn a_plan_has_at_most_so_many_steps(rt: HostRuntime) -> Result<(), Fail> {
    let none: &[u8] = b"";
    let rows: [(&str, usize, Status, &[u8]); 3] = [
        ("run", 128, Status::RulesRefused, none),
        ("check", 128, Status::RulesRefused, none),
        ("run", 127, Status::Done, b"end 0\n"),
    ];
    for row in rows {
        let mut text = Vec::new(rt.alloc());
        for _rule in 0..255 {
            push_rule(&mut text, 128)?;
        }
        push_rule(&mut text, row.1)?;
        let ran = run_over(rt.alloc(), &[row.0, "r"], &text, none, CALM)?;
        assert_eq!(rt; ran.status, row.2);
        assert_eq!(rt; ran.out.bytes(), row.3);
        let note: &[u8] = match row.2 {
            Status::Done => b"",
            _ => b"etalis: rules: over 65536 steps\n",
        };
        assert_eq!(rt; ran.notes.bytes(), note);
    }
    Ok(())
}

// How many of these don't stand among the others.
fn missing(these: &[Detection], others: &[Detection]) -> u128 {
    these.iter().filter(|one| !others.contains(one)).count() as u128
}

// The events with one that is added, or without one copy of one that is taken back.
pub(crate) fn follow(events: &mut Vec<Event>, input: Input) -> Result<(), Fail> {
    match input {
        Input::Add(event) => events.push(event)?,
        Input::Take(event) => {
            if let Some(place) = events.iter().position(|other| *other == event) {
                events.swap_remove(place);
            }
        }
        Input::Advance(_) | Input::Nothing | Input::Begin | Input::Commit => {}
    }
    Ok(())
}

pub(crate) fn next_input(alloc: Global, reader: &mut LineReader) -> Result<Input, Fail> {
    match reader.next_line() {
        Some(Line::Bytes(bytes)) => {
            if bytes.len() > 65_536 {
                return Err(Fail::new("a line is too long"));
            }
            match parse_line(alloc, bytes) {
                Ok(input) => Ok(input),
                Err(_) => Err(Fail::new("a line says nothing")),
            }
        }
        Some(Line::Long) | None => Err(Fail::new("no line")),
    }
}

// Whether two events have the same first argument.
fn same_argument(one: &Event, other: &Event) -> bool {
    match (
        one.atom.args.as_slice().first(),
        other.atom.args.as_slice().first(),
    ) {
        (Some(x), Some(y)) => cmp_terms(x, y) == Ordering::Equal,
        _ => false,
    }
}

// How many events of the other name, each once, are partners of one by `a(X) SEQ b(X)` within 6, of those that still count at a bound.
fn partners(events: &[Event], bound: u64, one: &Event) -> u128 {
    let is_left = one.atom.name.as_str() == "a";
    let mut found: u128 = 0;
    for place in 0..events.len() {
        let other = &events[place];
        let seen = events.iter().position(|event| *event == *other) != Some(place);
        let behind = if is_left {
            one.time() < other.time()
        } else {
            other.time() < one.time()
        };
        if !seen
            && behind
            && other.time().saturating_add(6) >= bound
            && one.atom.name.as_str() != other.atom.name.as_str()
            && same_argument(one, other)
        {
            found = found.saturating_add(1);
        }
    }
    found
}

fn copies(events: &[Event], event: &Event) -> usize {
    events.iter().filter(|other| **other == *event).count()
}

// How many visits an input makes over the events before it: one for an event that comes first or goes last, and one for each partner.
fn visits(events: &[Event], bound: u64, input: &Input) -> u128 {
    match input {
        Input::Add(event) if copies(events, event) == 0 => {
            partners(events, bound, event).saturating_add(1)
        }
        Input::Take(event) if copies(events, event) == 1 => {
            partners(events, bound, event).saturating_add(1)
        }
        _ => 0,
    }
}

// How far an input raises the bound, with a lateness of 10.
fn raised(input: &Input) -> u64 {
    match input {
        Input::Add(event) => event.time().saturating_sub(10),
        _ => 0,
    }
}

// The most rows that are held behind one of these lines, by what mode `held` writes.
fn most_held(alloc: Global, rules: &[u8], lines: &[u8]) -> Result<u64, Fail> {
    let ran = run_over(alloc, &["held", "r", "--late", "10"], rules, lines, CALM)?;
    let Ok(text) = str::from_utf8(ran.out.bytes()) else {
        return Err(Fail::new("no text"));
    };
    let mut most = 0;
    for line in text.lines() {
        let Some(numbers) = line.strip_prefix("held ") else {
            continue;
        };
        let Some((rows, _events)) = numbers.split_once(' ') else {
            return Err(Fail::new("one number"));
        };
        let Ok(rows) = rows.parse::<u64>() else {
            return Err(Fail::new("no number"));
        };
        most = rows.max(most);
    }
    Ok(most)
}

// What a drill writes over so many lines, all of which are accepted: what stands is found from scratch before and after each,
// partners by looking at all events, and the rows that are held by another run.
fn drilled(
    alloc: Global,
    rules: &Checked,
    lines: &[u8],
    count: usize,
    held: u64,
) -> Result<Vec<u8>, Fail> {
    let mut reader = LineReader::new(alloc);
    reader.feed(lines)?;
    let mut events = Vec::new(alloc);
    let mut before = Vec::new(alloc);
    let mut told: u128 = 0;
    let mut withdrawn: u128 = 0;
    let mut made: u128 = 0;
    let mut bound: u64 = 0;
    for _line in 0..count {
        let input = next_input(alloc, &mut reader)?;
        made = made.saturating_add(visits(&events, bound, &input));
        bound = bound.max(raised(&input));
        follow(&mut events, input)?;
        let after = scratch(alloc, rules, &events)?;
        told = told.saturating_add(missing(&after, &before));
        withdrawn = withdrawn.saturating_add(missing(&before, &after));
        before = after;
    }
    let mut text = Vec::new(alloc);
    drill_text(told, withdrawn, made, held, &mut text)?;
    Ok(text)
}

#[test]
fn a_drill_counts_what_comes_and_goes(rt: HostRuntime) -> Result<(), Fail> {
    let Ok(rules) = parse(rt.alloc(), WITHIN) else {
        return Err(Fail::new("no rules"));
    };
    let lines = drill_lines(rt.alloc(), &rules, 7, 120)?;
    let Ok(rules) = check(rt.alloc(), rules) else {
        return Err(Fail::new("no sound rules"));
    };
    let held = most_held(rt.alloc(), WITHIN.as_bytes(), &lines)?;
    let wanted = drilled(rt.alloc(), &rules, &lines, 120, held)?;
    let words = [
        "drill", "r", "--late", "10", "--lines", "120", "--seed", "7",
    ];
    for _time in 0..2 {
        writes(&rt, &words, WITHIN.as_bytes(), b"", &wanted)?;
    }
    Ok(())
}
