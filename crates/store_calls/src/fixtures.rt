// What several tests take.
ghost use Rattle.std.specs.Prelude.{IfOk};
ghost use Rattle.rule_ast.specs.Plain.{plain_rules};
ghost use Rattle.rule_check.specs.Verdict.{IsSound};

use ev_bind::{Binding, Row};
use event_model::{Slot, Span, TIME_LIMIT, Term};
use rule_check::{Checked, check};
use rule_parser::parse;
use std::alloc::Global;
use std::test::Fail;

// A row that binds X to 7.
pub(crate) fn row(alloc: Global, start: u64, end: u64) -> Result<Row, Fail> {
    if start > end || end >= TIME_LIMIT {
        return Err(Fail::new("no span"));
    }
    let binding = Binding::empty().extend(alloc, Slot::new(0), &Term::Num(7))?;
    Ok(Row {
        binding: binding.ok_or("a binding")?,
        span: Span::new(start, end),
    })
}

// The rules of a text that is sound.
pub(crate) fn checked(alloc: Global, text: &str) -> Result<Checked, Fail>
    ensures { IfOk result (λ c. IsSound (plain_rules c)) }
{
    if text.len() > 1_000_000 {
        return Err(Fail::new("a long text"));
    }
    let rules = parse(alloc, text)?;
    Ok(check(alloc, rules)?)
}
