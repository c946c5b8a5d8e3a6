// A morning of scans, and lines of which each leaves a watch that is taken apart.
ghost use Rattle.std.specs.Prelude.{◌<◌, ◌^◌, length, OnOk, IfOk, IfSome};
ghost use Rattle.event_model.specs.declared.events.TheConstants.{TIME_LIMIT};
ghost use Rattle.event_model.specs.Presence.{History};
ghost use Rattle.parcel_watch.specs.Watches.{Watches};

use crate::{DAY, Report, Watch};
use detect_writer::{change_text, held_text};
use etalis_core::MOST_COPIES;
use event_changes::Sign;
use event_model::{Atom, Event, Input, Judgement, MOST_LINE_BYTES, Name, Span, Term, Terms};
use event_reader::parse_line;
use std::alloc::{AllocError, Global};
use std::test::Fail;

const RULES: &str = "late(Parcel) <- NOT(taken(Parcel)).[sent(Parcel), due(Parcel)].";

// That something happened to a parcel at a time, which is below a million.
fn event(alloc: Global, what: &str, parcel: &str, time: u32) -> Result<Event, AllocError> {
    let mut args = Vec::new(alloc);
    args.push(Term::Text(Name::new(alloc, parcel)?))?;
    Ok(Event {
        span: Span::instant(u64::from(time)),
        atom: Atom {
            name: Name::new(alloc, what)?,
            args: Terms::new(alloc, args)?,
        },
    })
}

// Appends a report.
fn write(report: &Report, out: &mut Vec<u8>) -> Result<(), Fail> {
    match report {
        Report::Changed { gone, come } => {
            for detection in gone {
                change_text(Sign::Minus, detection, out)?;
            }
            for detection in come {
                change_text(Sign::Plus, detection, out)?;
            }
            out.extend_from_slice(b"ok\n")?;
        }
        Report::Kept => out.extend_from_slice(b"kept\n")?,
        Report::Refused(Judgement::Below { bound: 100 }) => out.extend_from_slice(b"below 100\n")?,
        Report::Refused(Judgement::Absent) => out.extend_from_slice(b"absent\n")?,
        Report::Refused(_) => return Err(Fail::new("another refusal")),
    }
    Ok(())
}

// Takes an input, and appends the report.
fn tell(watch: &mut Watch, input: Input, out: &mut Vec<u8>) -> Result<(), Fail>
    requires { (h : History) × Watches watch.old h }
    ensures { OnOk result ((h : History) × Watches watch.new h) }
{
    if watch.count() >= MOST_COPIES {
        return Err(Fail::new("no room"));
    }
    let report = watch.take(input)?;
    write(&report, out)
}

// A parcel is told as late; a scan that comes late withdraws that, and is a mistake itself.
#[test]
fn reports_follow_scans_that_come_late_or_are_false(rt: HostRuntime) -> Result<(), Fail> {
    let alloc = rt.alloc();
    let mut out = Vec::new(alloc);
    let mut watch = Watch::new(alloc, RULES, Some(DAY))?;
    tell(
        &mut watch,
        Input::Add(event(alloc, "sent", "P-78", 900)?),
        &mut out,
    )?;
    tell(
        &mut watch,
        Input::Add(event(alloc, "due", "P-78", 86_500)?),
        &mut out,
    )?;
    tell(
        &mut watch,
        Input::Add(event(alloc, "taken", "P-78", 1140)?),
        &mut out,
    )?;
    tell(
        &mut watch,
        Input::Add(event(alloc, "taken", "P-78", 99)?),
        &mut out,
    )?;
    tell(&mut watch, Input::Begin, &mut out)?;
    tell(
        &mut watch,
        Input::Take(event(alloc, "taken", "P-78", 1140)?),
        &mut out,
    )?;
    tell(
        &mut watch,
        Input::Take(event(alloc, "taken", "P-78", 1140)?),
        &mut out,
    )?;
    tell(&mut watch, Input::Commit, &mut out)?;
    let wanted = "\
ok
+ 900 86500 late(\"P-78\")
ok
- 900 86500 late(\"P-78\")
ok
below 100
kept
kept
absent
+ 900 86500 late(\"P-78\")
ok
";
    assert_eq!(rt; out.as_slice(), wanted.as_bytes());
    Ok(())
}

// Appends how much a watch keeps.
fn write_held(watch: &Watch, out: &mut Vec<u8>) -> Result<(), Fail>
    requires { (h : History) × Watches watch.now h }
{
    let held = watch.held();
    held_text(held.rows as u64, held.events as u64, out)?;
    Ok(())
}

// Takes a line, and appends the report and, where that is asked for, how much is kept; outside a batch it takes the watch apart then,
// and puts it together again.
fn tell_and_rest(
    alloc: Global,
    watch: Watch,
    line: &str,
    held: bool,
    out: &mut Vec<u8>,
) -> Result<Watch, Fail>
    requires { (h : History) × Watches watch h }
    ensures { IfOk result (λ watch. (h : History) × Watches watch h) }
{
    let mut watch = watch;
    let bytes = line.as_bytes();
    if bytes.len() > MOST_LINE_BYTES {
        return Err(Fail::new("a line that is too long"));
    }
    match parse_line(alloc, bytes) {
        Ok(input) => tell(&mut watch, input, out)?,
        Err(_) => return Err(Fail::new("a line that says nothing")),
    }
    if held {
        write_held(&watch, out)?;
    }
    if watch.in_batch() {
        return Ok(watch);
    }
    Ok(watch.rest().wake(alloc)?)
}

// What is written over these lines by a watch that is taken apart after each.
fn replies(
    alloc: Global,
    rules: &str,
    late: Option<u64>,
    lines: &str,
    held: bool,
) -> Result<Vec<u8>, Fail>
    requires text { length rules.now < 2 ^ 32 }
    requires late { IfSome late (λ seconds. seconds < TIME_LIMIT) }
{
    let mut out = Vec::new(alloc);
    let mut watch = Watch::new(alloc, rules, late)?;
    for line in lines.lines() {
        watch = tell_and_rest(alloc, watch, line, held, &mut out)?;
    }
    Ok(out)
}

// The replies are those of an engine that stays whole: copies of an event, a NOT, a NOT over a chain, and a lateness.
#[test]
fn taking_apart_after_each_line_changes_no_reply(rt: HostRuntime) -> Result<(), Fail> {
    let alloc = rt.alloc();
    let copies = replies(
        alloc,
        "ab(X) <- a(X) SEQ b(X).",
        None,
        "+ 1 a(7)\n+ 1 a(7)\n+ 2 b(7)\n- 1 a(7)\n- 1 a(7)\n",
        false,
    )?;
    assert_eq!(rt;
        copies.as_slice(),
        b"ok\nok\n+ 1 2 ab(7)\nok\nok\n- 1 2 ab(7)\nok\n".as_slice()
    );
    let negation = replies(
        alloc,
        "n(X) <- NOT(c(X)).[a(X),b(X)].",
        None,
        "+ 1 a(7)\n+ 5 b(7)\n+ 3 c(7)\n- 3 c(7)\n",
        false,
    )?;
    assert_eq!(rt;
        negation.as_slice(),
        b"ok\n+ 1 5 n(7)\nok\n- 1 5 n(7)\nok\n+ 1 5 n(7)\nok\n".as_slice()
    );
    let chain = replies(
        alloc,
        "show n/0. s <- a SEQ m. n <- NOT(c).[s,b].",
        None,
        "+ 1 a\n+ 2 m\n+ 5 m\n+ 3 c\n+ 6 b\n- 2 m\n",
        false,
    )?;
    assert_eq!(rt;
        chain.as_slice(),
        b"ok\nok\nok\nok\nok\n+ 1 6 n\nok\n".as_slice()
    );
    let late = replies(
        alloc,
        "alarm(Id) <- (NOT(ack(Id,_)).[open(Id), due(Id)]) WITHIN 300.",
        Some(30),
        "+ 100 open(\"O-1\")\n+ 220 due(\"O-1\")\n+ 200 ack(\"O-1\",ann)\n",
        false,
    )?;
    assert_eq!(rt;
        late.as_slice(),
        b"ok\n+ 100 220 alarm(\"O-1\")\nok\n- 100 220 alarm(\"O-1\")\nok\n".as_slice()
    );
    Ok(())
}

// What is kept is as much as well, at a bound that still lets a row count and at one that doesn't.
#[test]
fn taking_apart_after_each_line_keeps_as_much(rt: HostRuntime) -> Result<(), Fail> {
    let alloc = rt.alloc();
    let counts = replies(
        alloc,
        "w <- (a SEQ b) WITHIN 4.",
        None,
        "+ 6 a\n! 10\n+ 10 b\n",
        true,
    )?;
    assert_eq!(rt;
        counts.as_slice(),
        b"ok\nheld 2 1\nok\nheld 1 0\n+ 6 10 w\nok\nheld 7 1\n".as_slice()
    );
    let counts_no_more = replies(
        alloc,
        "w <- (a SEQ b) WITHIN 4.",
        None,
        "+ 6 a\n! 11\n+ 11 b\n",
        true,
    )?;
    assert_eq!(rt;
        counts_no_more.as_slice(),
        b"ok\nheld 2 1\nok\nheld 0 0\nok\nheld 2 1\n".as_slice()
    );
    Ok(())
}
