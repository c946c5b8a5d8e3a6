// The table of conditions at its corners.
use crate::fixtures::row;
use rule_ast::{Pattern, Statement};
use rule_parser::parse;
use std::alloc::Global;
use std::test::Fail;
use term_eval::{Value, holds, value_of};

// The truth of a condition where X is 7, or `None` where it has none; and whether it holds.
fn truth(alloc: Global, cond: &str) -> Result<(Option<bool>, bool), Fail> {
    let rules = parse(alloc, &format!(in alloc; "h <- a(X) WHERE {cond}.")?)?;
    let seven = row(alloc, 0, 0)?.binding;
    match rules.statements.first() {
        Some(Statement::Rule(rule)) => match &rule.body {
            Pattern::Where(_, cond) => match value_of(cond, &seven) {
                Some(Value::Truth(so)) => Ok((Some(so), holds(cond, &seven))),
                _ => Ok((None, holds(cond, &seven))),
            },
            _ => Err(Fail::new("no condition")),
        },
        _ => Err(Fail::new("no rule")),
    }
}

#[test]
fn conditions_at_their_corners(rt: HostRuntime) -> Result<(), Fail> {
    let table = [
        ("2 + 3 = 5", Some(true)),
        ("9223372036854775807 + 1 = 0", None),
        ("-9223372036854775808 - 1 = 0", None),
        ("9223372036854775807 * 2 = 0", None),
        ("-7 / 2 = -3", Some(true)),
        ("-7 % 2 = -1", Some(true)),
        ("7 % -2 = 1", Some(true)),
        ("-9223372036854775808 / -1 = 0", None),
        ("-9223372036854775808 % -1 = 0", None),
        ("7 / 0 = 0", None),
        ("7 % 0 = 0", None),
        ("1 = \"1\"", Some(false)),
        ("\"a\" < \"b\"", None),
        ("(1 < 2) = 1", None),
        ("!1 / 0 = 1", None),
        ("1 < 2 | 1 / 0 = 1", None),
        ("X + 1 = 8", Some(true)),
    ];
    for (cond, wanted) in table {
        assert_eq!(rt;
            truth(rt.alloc(), cond)?,
            (wanted, wanted == Some(true)),
            "{cond}"
        );
    }
    Ok(())
}
