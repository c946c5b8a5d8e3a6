// Patterns.
ghost use Rattle.std.specs.Prelude.{◌≡◌, ◌+◌, ◌∷◌, [], ◌++◌, ℕ, List, OnOk};
ghost use Rattle.rule_ast.specs.Plain.{plain_pattern};
ghost use Rattle.rule_lexer.specs.declared.terminals.Terminal.TheVariants as terminals;
ghost use Rattle.rule_grammar.specs.Tokens.{tree};
ghost use Rattle.rule_writer.specs.Forms.{pattern_form, as_tree};
ghost use Rattle.rule_writer.specs.Spelled.{pattern_level, pattern_spelled};
ghost use Rattle.rule_writer.specs.Writes.{Appends, pattern_rank, between};

use crate::conditions::{ConditionLevel, write_condition};
use crate::terms::{Place, write_compound};
use crate::texts::{write_if, write_number, write_str};
use event_model::{Name, Op};
use rule_ast::Pattern;
use std::alloc::AllocError;

/// How tightly a pattern has to bind where it stands, from the loosest level on.
#[derive(Clone, Copy)]
pub enum PatternLevel {
    Tree,
    Chain,
    Part,
    Round,
}

impl PatternLevel {
    fn rank(self) -> u8
        ensures { result ≡ pattern_rank self }
    {
        match self {
            PatternLevel::Tree => 0,
            PatternLevel::Chain => 1,
            PatternLevel::Part => 2,
            PatternLevel::Round => 3,
        }
    }
}

fn level_of(pattern: &Pattern) -> PatternLevel
    ensures { (names : List (List ℕ)) → pattern_rank result ≡ pattern_level (pattern_form names (plain_pattern pattern.now)) }
{
    match pattern {
        Pattern::Atom(_) => PatternLevel::Part,
        Pattern::Both(_, _, _) => PatternLevel::Chain,
        Pattern::Either(_, _) => PatternLevel::Chain,
        Pattern::Where(_, _) => PatternLevel::Tree,
        Pattern::Exact(_, _) => PatternLevel::Round,
        Pattern::Within(_, _) => PatternLevel::Round,
        Pattern::Not { .. } => PatternLevel::Part,
    }
}

fn op_word(op: Op) -> &'static str
    ensures { result.now ≡ between (terminals.Op op) }
{
    match op {
        Op::Seq => " SEQ ",
        Op::And => " AND ",
        Op::Par => " PAR ",
        Op::Equals => " EQUALS ",
        Op::Meets => " MEETS ",
        Op::During => " DURING ",
        Op::Starts => " STARTS ",
        Op::Finishes => " FINISHES ",
    }
}

/// A pattern where a level is wanted: in brackets if it is looser.
#[cycle(pattern)]
pub(crate) fn write_pattern(
    out: &mut Vec<u8>,
    names: &[Name],
    pattern: &Pattern,
    level: PatternLevel,
) -> Result<(), AllocError>
    ensures { OnOk result ((d : ℕ)
        → Appends out.old.items out.new.items
        (pattern_spelled (pattern_rank level) d (pattern_form names.now (plain_pattern pattern.now)))) }
{
    let bracketed = level_of(pattern).rank() < level.rank();
    write_if(out, bracketed, "(")?;
    write_bare(out, names, pattern)?;
    write_if(out, bracketed, ")")?;
    Ok(())
}

// A pattern without a bracket round it.
#[cycle(pattern)]
fn write_bare(out: &mut Vec<u8>, names: &[Name], pattern: &Pattern) -> Result<(), AllocError>
    ensures { OnOk result ((d : ℕ)
        → Appends out.old.items out.new.items (tree d (as_tree (pattern_form names.now (plain_pattern pattern.now))))) }
{
    match pattern {
        Pattern::Atom(atom) => {
            write_compound(
                out,
                names,
                Place::Argument,
                &atom.name,
                atom.args.as_slice(),
            )?
        }
        Pattern::Both(op, left, right) => {
            write_pattern(out, names, left, PatternLevel::Chain)?;
            write_str(out, op_word(*op))?;
            write_pattern(out, names, right, PatternLevel::Part)?
        }
        Pattern::Either(left, right) => {
            write_pattern(out, names, left, PatternLevel::Chain)?;
            write_str(out, " OR ")?;
            write_pattern(out, names, right, PatternLevel::Part)?
        }
        Pattern::Where(of, condition) => {
            write_pattern(out, names, of, PatternLevel::Tree)?;
            write_str(out, " WHERE ")?;
            write_condition(out, names, condition, ConditionLevel::Condition)?
        }
        Pattern::Exact(of, ticks) => {
            write_pattern(out, names, of, PatternLevel::Round)?;
            write_str(out, ".")?;
            write_number(out, *ticks)?
        }
        Pattern::Within(of, ticks) => {
            write_pattern(out, names, of, PatternLevel::Round)?;
            write_str(out, " WITHIN ")?;
            write_number(out, *ticks)?
        }
        Pattern::Not {
            inner,
            before,
            after,
        } => {
            write_str(out, "NOT(")?;
            write_pattern(out, names, inner, PatternLevel::Tree)?;
            write_str(out, ").[")?;
            write_pattern(out, names, before, PatternLevel::Tree)?;
            write_str(out, ",")?;
            write_pattern(out, names, after, PatternLevel::Tree)?;
            write_str(out, "]")?
        }
    }
    Ok(())
}
