// Conditions.
ghost use Rattle.std.specs.Prelude.{◌≡◌, ◌+◌, ◌∷◌, [], ◌++◌, ℕ, List, OnOk};
ghost use Rattle.rule_ast.specs.Plain.{plain_cond};
ghost use Rattle.rule_lexer.specs.declared.terminals.Terminal.TheVariants.{Compare};
ghost use Rattle.rule_grammar.specs.Tokens.{condition};
ghost use Rattle.rule_writer.specs.Forms.{condition_form, as_condition};
ghost use Rattle.rule_writer.specs.Spelled.{condition_level, condition_spelled};
ghost use Rattle.rule_writer.specs.Writes.{Appends, condition_rank, calc_rank, calc_token, between};

use crate::terms::{Place, write_term};
use crate::texts::{write_if, write_str};
use event_model::Name;
use rule_ast::{Calc, Cmp, Cond};
use std::alloc::AllocError;

/// How tightly a condition has to bind where it stands, from the loosest level on.
#[derive(Clone, Copy)]
pub enum ConditionLevel {
    Condition,
    All,
    Negation,
    Comparison,
    Sum,
    Product,
    Unit,
}

impl ConditionLevel {
    fn rank(self) -> u8
        ensures { result ≡ condition_rank self }
    {
        match self {
            ConditionLevel::Condition => 0,
            ConditionLevel::All => 1,
            ConditionLevel::Negation => 2,
            ConditionLevel::Comparison => 3,
            ConditionLevel::Sum => 4,
            ConditionLevel::Product => 5,
            ConditionLevel::Unit => 6,
        }
    }
}

// The level of a sum or product, and of its left operand.
fn calc_level(calc: Calc) -> ConditionLevel
    ensures { condition_rank result ≡ calc_rank calc }
{
    match calc {
        Calc::Add | Calc::Sub => ConditionLevel::Sum,
        Calc::Mul | Calc::Div | Calc::Rem => ConditionLevel::Product,
    }
}

fn right_level(calc: Calc) -> ConditionLevel
    ensures { condition_rank result ≡ calc_rank calc + 1 }
{
    match calc {
        Calc::Add | Calc::Sub => ConditionLevel::Product,
        Calc::Mul | Calc::Div | Calc::Rem => ConditionLevel::Unit,
    }
}

fn level_of(cond: &Cond) -> ConditionLevel
    ensures { (names : List (List ℕ)) → condition_rank result ≡ condition_level (condition_form names (plain_cond cond.now)) }
{
    match cond {
        Cond::Value(_) => ConditionLevel::Unit,
        Cond::Calc(calc, _, _) => calc_level(*calc),
        Cond::Compare(_, _, _) => ConditionLevel::Comparison,
        Cond::AndAlso(_, _) => ConditionLevel::All,
        Cond::OrElse(_, _) => ConditionLevel::Condition,
        Cond::Not(_) => ConditionLevel::Negation,
    }
}

fn calc_sign(calc: Calc) -> &'static str
    ensures { result.now ≡ between (calc_token calc) }
{
    match calc {
        Calc::Add => " + ",
        Calc::Sub => " - ",
        Calc::Mul => " * ",
        Calc::Div => " / ",
        Calc::Rem => " % ",
    }
}

fn cmp_sign(cmp: Cmp) -> &'static str
    ensures { result.now ≡ between (Compare cmp) }
{
    match cmp {
        Cmp::Eq => " = ",
        Cmp::Ne => " != ",
        Cmp::Lt => " < ",
        Cmp::Le => " <= ",
        Cmp::Gt => " > ",
        Cmp::Ge => " >= ",
    }
}

/// A condition where a level is wanted: in brackets if it is looser.
#[cycle(condition)]
pub(crate) fn write_condition(
    out: &mut Vec<u8>,
    names: &[Name],
    cond: &Cond,
    level: ConditionLevel,
) -> Result<(), AllocError>
    ensures { OnOk result ((d : ℕ)
        → Appends out.old.items out.new.items
        (condition_spelled (condition_rank level) d (condition_form names.now (plain_cond cond.now)))) }
{
    let bracketed = level_of(cond).rank() < level.rank();
    write_if(out, bracketed, "(")?;
    write_bare(out, names, cond)?;
    write_if(out, bracketed, ")")?;
    Ok(())
}

// A condition without a bracket round it.
#[cycle(condition)]
fn write_bare(out: &mut Vec<u8>, names: &[Name], cond: &Cond) -> Result<(), AllocError>
    ensures { OnOk result ((d : ℕ)
        → Appends out.old.items out.new.items (condition d (as_condition (condition_form names.now (plain_cond cond.now))))) }
{
    match cond {
        Cond::Value(pat) => write_term(out, names, Place::Operand, pat)?,
        Cond::Calc(calc, left, right) => {
            write_condition(out, names, left, calc_level(*calc))?;
            write_str(out, calc_sign(*calc))?;
            write_condition(out, names, right, right_level(*calc))?
        }
        Cond::Compare(cmp, left, right) => {
            write_condition(out, names, left, ConditionLevel::Sum)?;
            write_str(out, cmp_sign(*cmp))?;
            write_condition(out, names, right, ConditionLevel::Sum)?
        }
        Cond::AndAlso(left, right) => {
            write_condition(out, names, left, ConditionLevel::All)?;
            write_str(out, " & ")?;
            write_condition(out, names, right, ConditionLevel::Negation)?
        }
        Cond::OrElse(left, right) => {
            write_condition(out, names, left, ConditionLevel::Condition)?;
            write_str(out, " | ")?;
            write_condition(out, names, right, ConditionLevel::All)?
        }
        Cond::Not(inner) => {
            write_str(out, "!")?;
            write_condition(out, names, inner, ConditionLevel::Negation)?
        }
    }
    Ok(())
}
