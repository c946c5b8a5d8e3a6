// Lines, each made after those before it.
ghost use Rattle.std.specs.Prelude.{decimal, ◌≡◌, ◌++◌, ◌∷◌, ◌-◌, ◌%◌, ◌<◌, ◌≤◌, [], length, take, IfOk, OnOk};
ghost use Rattle.rule_ast.specs.Plain.{plain_rules};
ghost use Rattle.drill_lines.specs.Drill.{drawn, numbers, drawn_event, chosen, after_choice, line_after};
ghost use Rattle.drill_lines.specs.DrillText.{event_text, line_text, drill_text};
ghost use Rattle.drill_lines.specs.OpenNames.{open_names};
ghost use Rattle.drill_lines.specs.Recent.{slot_at, remembered, without};

use crate::draws::Draws;
use crate::kinds::{EventKind, open_kinds};
use event_model::{Atom, Event, Span, Term, Terms, atom_text};
use itoa::Buffer;
use rule_ast::RuleSet;
use std::alloc::{AllocError, Global};
use std::collections::VecDeque;

/// The most lines that are made.
pub const MOST_LINES: u64 = 1_000_000;

// How many of the last lines can be retracted.
const REACH: usize = 4;

// The last lines, at most `REACH` of them, the latest first: the event of each line whose event came and can be retracted.
type Recent = VecDeque<Option<Event>>;

fn push_number(number: u64, out: &mut Vec<u8>) -> Result<(), AllocError>
    ensures { OnOk result (out.new.items ≡ out.old.items ++ decimal number) }
{
    let mut buffer = Buffer::new();
    out.extend_from_slice(buffer.format(number).as_bytes())
}

// Appends a line that is of an event.
fn push_event(sign: u8, event: &Event, out: &mut Vec<u8>) -> Result<(), AllocError>
    ensures { OnOk result (out.new.items ≡ out.old.items ++ sign ∷ event_text event.now) }
{
    out.push(sign)?;
    out.push(b' ')?;
    push_number(event.time(), out)?;
    out.push(b' ')?;
    atom_text(&event.atom, out)?;
    Ok(out.push(b'\n')?)
}

// So many numbers from 0 to 4.
fn draw_args(alloc: Global, count: usize, draws: &mut Draws) -> Result<Vec<Term>, AllocError>
    ensures args { IfOk result (λ v. v.items ≡ (numbers count draws.old).args) }
    ensures state { OnOk result (draws.new ≡ (numbers count draws.old).state) }
{
    let mut args = Vec::new(alloc);
    for _number in 0..count {
        args.push(Term::Num(draws.draw(5) as i64))?;
    }
    Ok(args)
}

// The event of a line: its kind is drawn, then its time, then its arguments.
fn draw_event(
    alloc: Global,
    kinds: &[EventKind],
    number: u64,
    draws: &mut Draws,
) -> Result<Event, AllocError>
    requires some { 0 < length kinds.now }
    requires few { number ≤ MOST_LINES }
    ensures event { IfOk result (λ e. e ≡ (drawn_event kinds.now number draws.old).event) }
    ensures state { OnOk result (draws.new ≡ (drawn_event kinds.now number draws.old).state) }
{
    let kind = &kinds[draws.draw(kinds.len() as u64) as usize];
    let time = number + draws.draw(8);
    let args = draw_args(alloc, kind.arity, draws)?;
    let atom = Atom {
        name: kind.name.share()?,
        args: Terms::new(alloc, args)?,
    };
    Ok(Event {
        span: Span::instant(time),
        atom,
    })
}

// The event of the line so many before the last, where it can be retracted; from then on it can't.
#[tactic(auto, using(crate::proofs::Kept::slot_clear))]
fn take_open(recent: &mut Recent, back: usize) -> Option<Event>
    ensures event { result ≡ slot_at recent.old.items back }
    ensures recent { recent.new.items ≡ without recent.old.items back result }
{
    match recent.get_mut(back) {
        Some(slot) => slot.take(),
        None => None,
    }
}

// What the next line retracts.
fn choose(recent: &mut Recent, draws: &mut Draws) -> Option<Event>
    ensures event { result ≡ chosen (slot_at recent.old.items) draws.old }
    ensures state { draws.new ≡ after_choice draws.old }
    ensures recent { recent.new.items ≡ without recent.old.items (drawn (drawn draws.old) % REACH) result }
{
    if draws.draw(8) != 0 {
        return None;
    }
    let back = draws.draw(REACH as u64) as usize;
    take_open(recent, back)
}

// Keeps what can be retracted of one line more.
fn remember(recent: &mut Recent, slot: Option<Event>) -> Result<(), AllocError>
    ensures { OnOk result (recent.new.items ≡ slot ∷ take (REACH - 1) recent.old.items) }
{
    recent.truncate(REACH - 1);
    Ok(recent.push_front(slot)?)
}

// Appends the line after so many lines.
fn push_line(
    alloc: Global,
    kinds: &[EventKind],
    count: u64,
    recent: &mut Recent,
    draws: &mut Draws,
    out: &mut Vec<u8>,
) -> Result<(), AllocError>
    requires some { 0 < length kinds.now }
    requires few { count < MOST_LINES }
    ensures line { OnOk result (out.new.items ≡ out.old.items
        ++ line_text (line_after kinds.now (slot_at recent.old.items) count draws.old).line) }
    ensures state { OnOk result (draws.new ≡ (line_after kinds.now (slot_at recent.old.items) count draws.old).state) }
    ensures recent { OnOk result (recent.new.items ≡ remembered recent.old.items (drawn (drawn draws.old) % REACH)
        (line_after kinds.now (slot_at recent.old.items) count draws.old).line) }
{
    match choose(recent, draws) {
        Some(event) => {
            push_event(b'-', &event, out)?;
            remember(recent, None)
        }
        None => {
            let event = draw_event(alloc, kinds, count + 1, draws)?;
            push_event(b'+', &event, out)?;
            remember(recent, Some(event))
        }
    }
}

// The lines where events are of these kinds.
fn event_lines(alloc: Global, kinds: &[EventKind], seed: u64, n: u64) -> Result<Vec<u8>, AllocError>
    requires some { 0 < length kinds.now }
    requires few { n ≤ MOST_LINES }
    ensures { IfOk result (λ v. v.items ≡ drill_text kinds.now seed n) }
{
    let mut out = Vec::new(alloc);
    let mut recent = VecDeque::new(alloc);
    let mut draws = Draws::new(seed);
    for count in 0..n {
        push_line(alloc, kinds, count, &mut recent, &mut draws, &mut out)?;
    }
    Ok(out)
}

// The lines where events are of no kind: each raises the bound to its number.
fn advance_lines(alloc: Global, seed: u64, n: u64) -> Result<Vec<u8>, AllocError>
    requires { n ≤ MOST_LINES }
    ensures { IfOk result (λ v. v.items ≡ drill_text [] seed n) }
{
    let mut out = Vec::new(alloc);
    for count in 0..n {
        out.extend_from_slice(b"! ")?;
        push_number(count + 1, &mut out)?;
        out.push(b'\n')?;
    }
    Ok(out)
}

/// The lines that a seed makes for a rule file: events of the names that stand in its bodies and head no rule, each at a time
/// a little after the line's number. Some lines retract the event of one of the last four lines.
pub fn drill_lines(alloc: Global, rules: &RuleSet, seed: u64, n: u64) -> Result<Vec<u8>, AllocError>
    requires { n ≤ MOST_LINES }
    ensures { IfOk result (λ v. v.items ≡ drill_text (open_names (plain_rules rules.now)) seed n) }
{
    let kinds = open_kinds(alloc, rules.statements.as_slice())?;
    let kinds = kinds.as_slice();
    if kinds.is_empty() {
        return advance_lines(alloc, seed, n);
    }
    event_lines(alloc, kinds, seed, n)
}
