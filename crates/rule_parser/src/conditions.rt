//! Conditions, by the levels at which their operators bind.

ghost use Rattle.std.specs.Prelude.{◌≡◌, ◌∷◌, ◌≤◌, ℕ, true};
ghost use Rattle.rule_lexer.specs.declared.terminals.Terminal.TheVariants as made;
ghost use Rattle.rule_ast.specs.Plain.{plain_cond};
ghost use Rattle.rule_grammar.specs.Values.{unit_value, product_value, sum_value, comparison_value, negation_value, all_value, condition_value};
ghost use Rattle.rule_parser.specs.declared.signs.Sign.TheVariants.{Both, Either};
ghost use Rattle.rule_parser.specs.Signs.{Lacks, LacksScaling, LacksAdding};
ghost use Rattle.rule_parser.specs.Steps.{counted, Fine, Answer, AnswerTo, begins_word, unit_level, product_level, sum_level, comparison_level, negation_level, all_level, condition_level};

use crate::faults::Stop;
use crate::ledger::{Ledger, add_part, slot_of};
use crate::signs::{
    Adding, Scaling, Sign, expect, limit, skip, syntax, take_adding, take_compare, take_first,
    take_scaling,
};
use crate::terms::{Kind, arguments_at, word_at};
use event_model::{Name, Pat, Pats};
use rule_ast::Cond;
use rule_grammar::{MOST_BRACKETS, Which};
use rule_lexer::Terminal;
use std::alloc::Global;

fn begins_word(first: &Terminal) -> bool
    ensures { result ≡ begins_word first.now }
{
    match first {
        Terminal::Number(_) => true,
        Terminal::Text(_) => true,
        Terminal::Minus => true,
        _ => false,
    }
}

// The operand that is a number or a text.
fn word_operand_at<'a>(
    tokens: &'a [Terminal],
    first: &Terminal,
    rest: &[Terminal],
    ledger: &mut Ledger,
) -> Result<(Cond, &'a [Terminal]), Stop>
    requires first { tokens.now ≡ first.now ∷ rest.now }
    requires begins { begins_word first.now ≡ true }
    requires fine { Fine (counted ledger.old) }
    ensures { (d : ℕ) → Answer unit_level unit_value plain_cond tokens.now d (counted ledger.old) (counted ledger.new) result }
{
    add_part(ledger, tokens)?;
    match word_at(tokens)? {
        Some((term, rest)) => Ok((Cond::Value(term), rest)),
        None => Err(syntax(tokens)),
    }
}

// The operand that is a variable.
fn variable_operand_at<'a>(
    tokens: &'a [Terminal],
    name: &Name,
    rest: &'a [Terminal],
    ledger: &mut Ledger,
) -> Result<(Cond, &'a [Terminal]), Stop>
    requires named { tokens.now ≡ made.Var name.now ∷ rest.now }
    requires fine { Fine (counted ledger.old) }
    ensures { (d : ℕ) → Answer unit_level unit_value plain_cond tokens.now d (counted ledger.old) (counted ledger.new) result }
{
    add_part(ledger, tokens)?;
    let slot = slot_of(ledger, name, tokens)?;
    Ok((Cond::Value(Pat::Var(slot)), rest))
}

// The operand that begins with a name.
fn named_operand_at<'a>(
    alloc: Global,
    tokens: &'a [Terminal],
    name: &Name,
    rest: &'a [Terminal],
    ledger: &mut Ledger,
) -> Result<(Cond, &'a [Terminal]), Stop>
    requires named { tokens.now ≡ made.Name name.now ∷ rest.now }
    requires fine { Fine (counted ledger.old) }
    ensures { (d : ℕ) → Answer unit_level unit_value plain_cond tokens.now d (counted ledger.old) (counted ledger.new) result }
{
    add_part(ledger, tokens)?;
    let Some(inside) = skip(rest, Sign::Open) else {
        return Ok((Cond::Value(Pat::Sym(name.share()?)), rest));
    };
    let (args, rest) = arguments_at(alloc, inside, Kind::Operand, 2, ledger)?;
    let term = Pat::Comp(name.share()?, Pats::new(alloc, args)?);
    Ok((Cond::Value(term), rest))
}

fn operand_at<'a>(
    alloc: Global,
    tokens: &'a [Terminal],
    ledger: &mut Ledger,
) -> Result<(Cond, &'a [Terminal]), Stop>
    requires open { Lacks Sign.Open tokens.now }
    requires fine { Fine (counted ledger.old) }
    ensures { (d : ℕ) → Answer unit_level unit_value plain_cond tokens.now d (counted ledger.old) (counted ledger.new) result }
{
    let Some((first, rest)) = take_first(tokens) else {
        return Err(syntax(tokens));
    };
    if begins_word(first) {
        return word_operand_at(tokens, first, rest, ledger);
    }
    match first {
        Terminal::Var(name) => variable_operand_at(tokens, name, rest, ledger),
        Terminal::Name(name) => named_operand_at(alloc, tokens, name, rest, ledger),
        _ => Err(syntax(tokens)),
    }
}

#[cycle(conditions)]
fn unit_at<'a>(
    alloc: Global,
    tokens: &'a [Terminal],
    depth: usize,
    ledger: &mut Ledger,
) -> Result<(Cond, &'a [Terminal]), Stop>
    requires deep { depth ≤ MOST_BRACKETS }
    requires fine { Fine (counted ledger.old) }
    ensures { Answer unit_level unit_value plain_cond tokens.now depth (counted ledger.old) (counted ledger.new) result }
{
    let Some(inside) = skip(tokens, Sign::Open) else {
        return operand_at(alloc, tokens, ledger);
    };
    if depth >= MOST_BRACKETS {
        return Err(limit(Which::Depth, tokens));
    }
    let (inner, rest) = condition_at(alloc, inside, depth + 1, ledger)?;
    let rest = expect(rest, Sign::Close)?;
    Ok((inner, rest))
}

#[cycle(conditions)]
fn product_at<'a>(
    alloc: Global,
    tokens: &'a [Terminal],
    depth: usize,
    ledger: &mut Ledger,
) -> Result<(Cond, &'a [Terminal]), Stop>
    requires deep { depth ≤ MOST_BRACKETS }
    requires fine { Fine (counted ledger.old) }
    ensures { AnswerTo product_level product_value plain_cond LacksScaling tokens.now depth
        (counted ledger.old) (counted ledger.new) result }
{
    let (mut left, mut rest) = unit_at(alloc, tokens, depth, ledger)?;
    while let Some((op, more)) = take_scaling(rest) {
        add_part(ledger, rest)?;
        let (right, after) = unit_at(alloc, more, depth, ledger)?;
        left = Cond::Calc(op.calc(), Box::new(alloc, left)?, Box::new(alloc, right)?);
        rest = after;
    }
    Ok((left, rest))
}

#[cycle(conditions)]
fn sum_at<'a>(
    alloc: Global,
    tokens: &'a [Terminal],
    depth: usize,
    ledger: &mut Ledger,
) -> Result<(Cond, &'a [Terminal]), Stop>
    requires deep { depth ≤ MOST_BRACKETS }
    requires fine { Fine (counted ledger.old) }
    ensures { AnswerTo sum_level sum_value plain_cond LacksAdding tokens.now depth (counted ledger.old) (counted ledger.new) result }
{
    let (mut left, mut rest) = product_at(alloc, tokens, depth, ledger)?;
    while let Some((op, more)) = take_adding(rest) {
        add_part(ledger, rest)?;
        let (right, after) = product_at(alloc, more, depth, ledger)?;
        left = Cond::Calc(op.calc(), Box::new(alloc, left)?, Box::new(alloc, right)?);
        rest = after;
    }
    Ok((left, rest))
}

#[cycle(conditions)]
fn comparison_at<'a>(
    alloc: Global,
    tokens: &'a [Terminal],
    depth: usize,
    ledger: &mut Ledger,
) -> Result<(Cond, &'a [Terminal]), Stop>
    requires deep { depth ≤ MOST_BRACKETS }
    requires fine { Fine (counted ledger.old) }
    ensures { Answer comparison_level comparison_value plain_cond tokens.now depth (counted ledger.old) (counted ledger.new) result }
{
    let (left, rest) = sum_at(alloc, tokens, depth, ledger)?;
    let Some((cmp, more)) = take_compare(rest) else {
        return Ok((left, rest));
    };
    add_part(ledger, rest)?;
    let (right, rest) = sum_at(alloc, more, depth, ledger)?;
    let whole = Cond::Compare(cmp, Box::new(alloc, left)?, Box::new(alloc, right)?);
    Ok((whole, rest))
}

#[cycle(conditions)]
fn negation_at<'a>(
    alloc: Global,
    tokens: &'a [Terminal],
    depth: usize,
    ledger: &mut Ledger,
) -> Result<(Cond, &'a [Terminal]), Stop>
    requires deep { depth ≤ MOST_BRACKETS }
    requires fine { Fine (counted ledger.old) }
    ensures { Answer negation_level negation_value plain_cond tokens.now depth (counted ledger.old) (counted ledger.new) result }
{
    let Some(more) = skip(tokens, Sign::Bang) else {
        return comparison_at(alloc, tokens, depth, ledger);
    };
    add_part(ledger, tokens)?;
    let (inner, rest) = negation_at(alloc, more, depth, ledger)?;
    Ok((Cond::Not(Box::new(alloc, inner)?), rest))
}

#[cycle(conditions)]
fn all_at<'a>(
    alloc: Global,
    tokens: &'a [Terminal],
    depth: usize,
    ledger: &mut Ledger,
) -> Result<(Cond, &'a [Terminal]), Stop>
    requires deep { depth ≤ MOST_BRACKETS }
    requires fine { Fine (counted ledger.old) }
    ensures { AnswerTo all_level all_value plain_cond (Lacks Both) tokens.now depth (counted ledger.old) (counted ledger.new) result }
{
    let (mut left, mut rest) = negation_at(alloc, tokens, depth, ledger)?;
    while let Some(more) = skip(rest, Sign::Both) {
        add_part(ledger, rest)?;
        let (right, after) = negation_at(alloc, more, depth, ledger)?;
        left = Cond::AndAlso(Box::new(alloc, left)?, Box::new(alloc, right)?);
        rest = after;
    }
    Ok((left, rest))
}

/// The condition that stands first, inside of some open brackets.
#[cycle(conditions)]
pub fn condition_at<'a>(
    alloc: Global,
    tokens: &'a [Terminal],
    depth: usize,
    ledger: &mut Ledger,
) -> Result<(Cond, &'a [Terminal]), Stop>
    requires deep { depth ≤ MOST_BRACKETS }
    requires fine { Fine (counted ledger.old) }
    ensures { AnswerTo condition_level condition_value plain_cond (Lacks Either) tokens.now depth
        (counted ledger.old) (counted ledger.new) result }
{
    let (mut left, mut rest) = all_at(alloc, tokens, depth, ledger)?;
    while let Some(more) = skip(rest, Sign::Either) {
        add_part(ledger, rest)?;
        let (right, after) = all_at(alloc, more, depth, ledger)?;
        left = Cond::OrElse(Box::new(alloc, left)?, Box::new(alloc, right)?);
        rest = after;
    }
    Ok((left, rest))
}
