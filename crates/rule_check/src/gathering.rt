// The rules and the shown names of a file, as they stand in it.
ghost use Rattle.std.specs.Prelude.{◌≡◌, ◌<◌, ◌^◌, ◌++◌, length, map, IfOk, OnOk};
ghost use Rattle.rule_ast.specs.Plain.{plain_statement};
ghost use Rattle.rule_ast.specs.Shown.{shown_names};
ghost use Rattle.rule_check.specs.Gathered.{rules_at};
ghost use Rattle.rule_check.specs.Names.{has_show, unknown_shows};
ghost use Rattle.rule_check.specs.Offenders.{first};
ghost use Rattle.rule_check.specs.Sound.{rules_of};

use crate::numbers::Numbers;
use event_model::NameArity;
use rule_ast::{Rule, Statement};
use std::alloc::{AllocError, Global};

// The rules of a file.
pub(crate) fn rules_of<'a>(
    alloc: Global,
    statements: &'a [Statement],
) -> Result<Vec<&'a Rule>, AllocError>
    ensures { IfOk result (λ v. rules_at v.items ≡ rules_of (map plain_statement statements.now)) }
{
    let mut rules = Vec::new(alloc);
    for statement in statements {
        match statement {
            Statement::Rule(rule) => rules.push(rule)?,
            Statement::Show(_) => {}
        }
    }
    Ok(rules)
}

// Puts equal names, which share their texts, behind others.
pub(crate) fn push_names(names: &mut Vec<NameArity>, more: &[NameArity]) -> Result<(), AllocError>
    ensures { OnOk result (names.new.items ≡ names.old.items ++ more.now) }
{
    for one in more {
        let name = one.name.share()?;
        names.push(NameArity {
            name,
            arity: one.arity,
        })?;
    }
    Ok(())
}

// The names of the `show` statements.
pub(crate) fn shown_names(
    alloc: Global,
    statements: &[Statement],
) -> Result<Vec<NameArity>, AllocError>
    ensures { IfOk result (λ v. v.items ≡ shown_names (map plain_statement statements.now)) }
{
    let mut names = Vec::new(alloc);
    for statement in statements {
        match statement {
            Statement::Rule(_) => {}
            Statement::Show(more) => push_names(&mut names, more)?,
        }
    }
    Ok(names)
}

// Whether there is a `show` statement.
pub(crate) fn has_show(statements: &[Statement]) -> bool
    ensures { result ≡ has_show (map plain_statement statements.now) }
{
    for statement in statements {
        match statement {
            Statement::Rule(_) => {}
            Statement::Show(_) => return true,
        }
    }
    false
}

// The number of the first shown name that isn't among the heads.
pub(crate) fn unknown_show(shown: &[NameArity], heads: &Numbers) -> Option<u32>
    requires few { length shown.now < 2 ^ 32 }
    ensures { result ≡ first (unknown_shows 1 heads.now shown.now) }
{
    let mut number: u32 = 0;
    for name in shown {
        number += 1;
        if !heads.has(name) {
            return Some(number);
        }
    }
    None
}
