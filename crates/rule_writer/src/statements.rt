// Statements.
ghost use Rattle.std.specs.Prelude.{◌≡◌, ℕ, OnOk, IfOk};
ghost use Rattle.rule_ast.specs.Plain.{plain_rule, plain_statement, plain_rules};
ghost use Rattle.rule_ast.specs.Trees.{Clause};
ghost use Rattle.rule_grammar.specs.Tokens.{statement as statement_tokens};
ghost use Rattle.rule_writer.specs.Forms.{statement_form};
ghost use Rattle.rule_writer.specs.Canonical.{canonical};
ghost use Rattle.rule_writer.specs.Writes.{Appends, item_tokens, all_items};

use crate::heads::write_head;
use crate::patterns::{PatternLevel, write_pattern};
use crate::texts::{write_number, write_str};
use event_model::NameArity;
use rule_ast::{Rule, RuleSet, Statement};
use std::alloc::{AllocError, Global};

fn write_item(out: &mut Vec<u8>, item: &NameArity) -> Result<(), AllocError>
    ensures { OnOk result (Appends out.old.items out.new.items (item_tokens item.now)) }
{
    write_str(out, item.name.as_str())?;
    write_str(out, "/")?;
    write_number(out, item.arity as u64)?;
    Ok(())
}

// Shown names, with a comma and a blank between each two.
fn write_items(out: &mut Vec<u8>, names: &[NameArity]) -> Result<(), AllocError>
    ensures { OnOk result (Appends out.old.items out.new.items (all_items names.now)) }
{
    if names.is_empty() {
        write_str(out, "/0")?;
        return Ok(());
    }
    write_item(out, &names[0])?;
    for i in 1..names.len() {
        write_str(out, ", ")?;
        write_item(out, &names[i])?;
    }
    Ok(())
}

fn write_rule(out: &mut Vec<u8>, rule: &Rule) -> Result<(), AllocError>
    ensures { OnOk result ((n : ℕ)
        → Appends out.old.items out.new.items (statement_tokens n (statement_form (Clause (plain_rule rule.now))))) }
{
    let names = rule.vars.as_slice();
    write_head(out, names, &rule.head)?;
    write_str(out, " <- ")?;
    write_pattern(out, names, &rule.body, PatternLevel::Tree)?;
    write_str(out, ".\n")?;
    Ok(())
}

fn write_statement(out: &mut Vec<u8>, statement: &Statement) -> Result<(), AllocError>
    ensures { OnOk result ((n : ℕ)
        → Appends out.old.items out.new.items (statement_tokens n (statement_form (plain_statement statement.now)))) }
{
    match statement {
        Statement::Rule(rule) => write_rule(out, rule)?,
        Statement::Show(names) => {
            write_str(out, "show ")?;
            write_items(out, names.as_slice())?;
            write_str(out, ".\n")?
        }
    }
    Ok(())
}

/// The canonical text of rules: a statement on each line, brackets only where the rules need them, and one way to write
/// each number and text.
pub fn rules_text(alloc: Global, rules: &RuleSet) -> Result<Vec<u8>, AllocError>
    ensures { IfOk result (λ v. v.items ≡ canonical (plain_rules rules.now)) }
{
    let mut out = Vec::new(alloc);
    for statement in &rules.statements {
        write_statement(&mut out, statement)?;
    }
    Ok(out)
}
