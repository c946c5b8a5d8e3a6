//! Patterns, by the levels at which their operators bind.

ghost use Rattle.std.specs.Prelude.{◌≡◌, ◌∷◌, ◌≤◌, ℕ, List, IfOk};
ghost use Rattle.rule_lexer.specs.declared.terminals.Terminal.TheVariants as made;
ghost use Rattle.rule_ast.specs.Trees as trees;
ghost use Rattle.rule_grammar.specs.Values.{joined_value, part_value, round_value, chain_value, tree_value};
ghost use Rattle.rule_parser.specs.declared.signs.Sign.TheVariants.{Where};
ghost use Rattle.rule_parser.specs.Signs.{joint_of, bounded_value, Lacks, LacksJoint, LacksBound};
ghost use Rattle.rule_parser.specs.Steps.{counted, Fine, Answer, AnswerTo, LengthAnswer, boxed_pattern, part_level, round_level, chain_level, tree_level};

use crate::conditions::condition_at;
use crate::faults::Stop;
use crate::ledger::{Ledger, add_part};
use crate::signs::{
    Bound, Joint, Sign, expect, limit, skip, syntax, take_bound, take_first, take_joint,
};
use crate::terms::{Kind, arguments_at};
use event_model::{Name, PatAtom, Pats};
use rule_ast::{MOST_TICKS, Pattern};
use rule_grammar::{MOST_BRACKETS, Which};
use rule_lexer::Terminal;
use std::alloc::{AllocError, Global};

// The atom that begins with a name.
fn atom_at<'a>(
    alloc: Global,
    tokens: &'a [Terminal],
    name: &Name,
    rest: &'a [Terminal],
    ledger: &mut Ledger,
) -> Result<(Box<Pattern>, &'a [Terminal]), Stop>
    requires named { tokens.now ≡ made.Name name.now ∷ rest.now }
    requires fine { Fine (counted ledger.old) }
    ensures { (d : ℕ) → Answer part_level part_value boxed_pattern tokens.now d (counted ledger.old) (counted ledger.new) result }
{
    add_part(ledger, tokens)?;
    let Some(inside) = skip(rest, Sign::Open) else {
        let args = Pats::new(alloc, Vec::new(alloc))?;
        let name = name.share()?;
        let atom = Pattern::Atom(PatAtom { name, args });
        return Ok((Box::new(alloc, atom)?, rest));
    };
    let (args, rest) = arguments_at(alloc, inside, Kind::Argument, 1, ledger)?;
    let args = Pats::new(alloc, args)?;
    let name = name.share()?;
    let atom = Pattern::Atom(PatAtom { name, args });
    Ok((Box::new(alloc, atom)?, rest))
}

// A length in ticks.
fn length_at(tokens: &[Terminal]) -> Result<(u64, &[Terminal]), Stop>
    ensures { LengthAnswer tokens.now result }
{
    let Some((first, rest)) = take_first(tokens) else {
        return Err(syntax(tokens));
    };
    let Terminal::Number(n) = first else {
        return Err(syntax(tokens));
    };
    let ticks = n.value();
    if ticks > MOST_TICKS {
        return Err(limit(Which::Length, tokens));
    }
    Ok((ticks, rest))
}

fn bounded(
    alloc: Global,
    bound: Bound,
    inner: Box<Pattern>,
    ticks: u64,
) -> Result<Box<Pattern>, AllocError>
    ensures { IfOk result (λ p. boxed_pattern p ≡ bounded_value bound (boxed_pattern inner) ticks) }
{
    let whole = match bound {
        Bound::Exact => Box::new(alloc, Pattern::Exact(inner, ticks))?,
        Bound::Most => Box::new(alloc, Pattern::Within(inner, ticks))?,
    };
    Ok(whole)
}

fn joined(
    alloc: Global,
    joint: Joint,
    left: Box<Pattern>,
    right: Box<Pattern>,
) -> Result<Box<Pattern>, AllocError>
    ensures { IfOk result (λ p. boxed_pattern p ≡ joined_value (joint_of joint) (boxed_pattern left) (boxed_pattern right)) }
{
    let whole = match joint {
        Joint::Span(op) => Box::new(alloc, Pattern::Both(op, left, right))?,
        Joint::Or => Box::new(alloc, Pattern::Either(left, right))?,
    };
    Ok(whole)
}

// The part that begins with NOT.
#[cycle(patterns)]
fn without_at<'a>(
    alloc: Global,
    tokens: &'a [Terminal],
    rest: &'a [Terminal],
    depth: usize,
    ledger: &mut Ledger,
) -> Result<(Box<Pattern>, &'a [Terminal]), Stop>
    requires first { tokens.now ≡ made.Not ∷ rest.now }
    requires deep { depth ≤ MOST_BRACKETS }
    requires fine { Fine (counted ledger.old) }
    ensures { Answer part_level part_value boxed_pattern tokens.now depth (counted ledger.old) (counted ledger.new) result }
{
    add_part(ledger, tokens)?;
    let inside = expect(rest, Sign::Open)?;
    if depth >= MOST_BRACKETS {
        return Err(limit(Which::Depth, rest));
    }
    let (inner, rest) = pattern_at(alloc, inside, depth + 1, ledger)?;
    let rest = expect(rest, Sign::Close)?;
    let rest = expect(rest, Sign::Limits)?;
    let (before, rest) = pattern_at(alloc, rest, depth + 1, ledger)?;
    let rest = expect(rest, Sign::Comma)?;
    let (after, rest) = pattern_at(alloc, rest, depth + 1, ledger)?;
    let rest = expect(rest, Sign::Square)?;
    let whole = Pattern::Not {
        inner,
        before,
        after,
    };
    Ok((Box::new(alloc, whole)?, rest))
}

// The pattern in brackets that stands first, without bounds.
#[cycle(patterns)]
fn bracketed_at<'a>(
    alloc: Global,
    tokens: &'a [Terminal],
    inside: &'a [Terminal],
    depth: usize,
    ledger: &mut Ledger,
) -> Result<(Box<Pattern>, &'a [Terminal]), Stop>
    requires first { tokens.now ≡ made.Open ∷ inside.now }
    requires deep { depth ≤ MOST_BRACKETS }
    requires fine { Fine (counted ledger.old) }
    ensures { Answer round_level round_value boxed_pattern tokens.now depth (counted ledger.old) (counted ledger.new) result }
{
    if depth >= MOST_BRACKETS {
        return Err(limit(Which::Depth, tokens));
    }
    let (inner, rest) = pattern_at(alloc, inside, depth + 1, ledger)?;
    let rest = expect(rest, Sign::Close)?;
    Ok((inner, rest))
}

// The same with its bounds.
#[cycle(patterns)]
fn round_at<'a>(
    alloc: Global,
    tokens: &'a [Terminal],
    inside: &'a [Terminal],
    depth: usize,
    ledger: &mut Ledger,
) -> Result<(Box<Pattern>, &'a [Terminal]), Stop>
    requires first { tokens.now ≡ made.Open ∷ inside.now }
    requires deep { depth ≤ MOST_BRACKETS }
    requires fine { Fine (counted ledger.old) }
    ensures { Answer part_level part_value boxed_pattern tokens.now depth (counted ledger.old) (counted ledger.new) result }
{
    let (mut left, mut rest) = bracketed_at(alloc, tokens, inside, depth, ledger)?;
    while let Some((bound, more)) = take_bound(rest) {
        add_part(ledger, rest)?;
        let (ticks, after) = length_at(more)?;
        left = bounded(alloc, bound, left, ticks)?;
        rest = after;
    }
    Ok((left, rest))
}

#[cycle(patterns)]
fn part_at<'a>(
    alloc: Global,
    tokens: &'a [Terminal],
    depth: usize,
    ledger: &mut Ledger,
) -> Result<(Box<Pattern>, &'a [Terminal]), Stop>
    requires deep { depth ≤ MOST_BRACKETS }
    requires fine { Fine (counted ledger.old) }
    ensures { Answer part_level part_value boxed_pattern tokens.now depth (counted ledger.old) (counted ledger.new) result }
{
    let Some((first, rest)) = take_first(tokens) else {
        return Err(syntax(tokens));
    };
    match first {
        Terminal::Name(name) => atom_at(alloc, tokens, name, rest, ledger),
        Terminal::Not => without_at(alloc, tokens, rest, depth, ledger),
        Terminal::Open => round_at(alloc, tokens, rest, depth, ledger),
        _ => Err(syntax(tokens)),
    }
}

#[cycle(patterns)]
fn chain_at<'a>(
    alloc: Global,
    tokens: &'a [Terminal],
    depth: usize,
    ledger: &mut Ledger,
) -> Result<(Box<Pattern>, &'a [Terminal]), Stop>
    requires deep { depth ≤ MOST_BRACKETS }
    requires fine { Fine (counted ledger.old) }
    ensures { AnswerTo chain_level chain_value boxed_pattern LacksJoint tokens.now depth (counted ledger.old) (counted ledger.new) result }
{
    let (mut left, mut rest) = part_at(alloc, tokens, depth, ledger)?;
    while let Some((joint, more)) = take_joint(rest) {
        add_part(ledger, rest)?;
        let (right, after) = part_at(alloc, more, depth, ledger)?;
        left = joined(alloc, joint, left, right)?;
        rest = after;
    }
    Ok((left, rest))
}

/// The pattern that stands first, inside of some open brackets.
#[cycle(patterns)]
pub fn pattern_at<'a>(
    alloc: Global,
    tokens: &'a [Terminal],
    depth: usize,
    ledger: &mut Ledger,
) -> Result<(Box<Pattern>, &'a [Terminal]), Stop>
    requires deep { depth ≤ MOST_BRACKETS }
    requires fine { Fine (counted ledger.old) }
    ensures { AnswerTo tree_level tree_value boxed_pattern (Lacks Where) tokens.now depth (counted ledger.old) (counted ledger.new) result }
{
    let (mut left, mut rest) = chain_at(alloc, tokens, depth, ledger)?;
    while let Some(more) = skip(rest, Sign::Where) {
        add_part(ledger, rest)?;
        let (right, after) = condition_at(alloc, more, depth, ledger)?;
        left = Box::new(alloc, Pattern::Where(left, right))?;
        rest = after;
    }
    Ok((left, rest))
}
