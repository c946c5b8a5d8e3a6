// What several tests take.
ghost use Rattle.std.specs.Prelude.{IfOk};
ghost use Rattle.rule_ast.specs.Plain.{plain_rules};
ghost use Rattle.rule_check.specs.Verdict.{IsSound};

use ev_bind::{Binding, Row};
use event_model::{Atom, Event, Name, Pat, PatAtom, Pats, Slot, Span, TIME_LIMIT, Term, Terms};
use rule_check::{Checked, check};
use rule_parser::parse;
use std::alloc::{AllocError, Global};
use std::test::Fail;

pub(crate) fn atom(alloc: Global, name: &str, args: &[i64]) -> Result<Atom, AllocError> {
    let mut terms = Vec::new(alloc);
    for arg in args {
        terms.push(Term::Num(*arg))?;
    }
    Ok(Atom {
        name: Name::new(alloc, name)?,
        args: Terms::new(alloc, terms)?,
    })
}

// An atom of a rule, with variables and, for `None`, the wildcard.
pub(crate) fn pattern(
    alloc: Global,
    name: &str,
    args: &[Option<Slot>],
) -> Result<PatAtom, AllocError> {
    let mut pats = Vec::new(alloc);
    for arg in args {
        pats.push(match arg {
            Some(slot) => Pat::Var(*slot),
            None => Pat::Any,
        })?;
    }
    Ok(PatAtom {
        name: Name::new(alloc, name)?,
        args: Pats::new(alloc, pats)?,
    })
}

// An event on a span.
pub(crate) fn event(
    alloc: Global,
    name: &str,
    args: &[i64],
    start: u64,
    end: u64,
) -> Result<Event, Fail> {
    if start > end || end >= TIME_LIMIT {
        return Err(Fail::new("no span"));
    }
    Ok(Event {
        span: Span::new(start, end),
        atom: atom(alloc, name, args)?,
    })
}

// A row that binds X to 7.
pub(crate) fn row(alloc: Global, start: u64, end: u64) -> Result<Row, Fail> {
    if start > end || end >= TIME_LIMIT {
        return Err(Fail::new("no span"));
    }
    let binding = Binding::empty().extend(alloc, Slot::new(0), &Term::Num(7))?;
    Ok(Row {
        binding: binding.ok_or("a binding")?,
        span: Span::new(start, end),
    })
}

// The rules of a text that is sound.
pub(crate) fn checked(alloc: Global, text: &str) -> Result<Checked, Fail>
    ensures { IfOk result (λ c. IsSound (plain_rules c)) }
{
    if text.len() > 1_000_000 {
        return Err(Fail::new("a long text"));
    }
    let rules = parse(alloc, text)?;
    Ok(check(alloc, rules)?)
}
