//! Terms, and lists of arguments.

ghost use Rattle.std.specs.Prelude.{◌≡◌, ◌∷◌, ◌≤◌, List};
ghost use Rattle.event_model.specs.declared.terms.Pat.{Pat};
ghost use Rattle.rule_lexer.specs.declared.terminals.Terminal.TheVariants as made;
ghost use Rattle.rule_parser.specs.Steps.{counted, Fine, same, Answer, ListAnswer, WordAnswer, NegativeAnswer, LeafAnswer, term_level, term_of};

use crate::faults::Stop;
use crate::ledger::{Ledger, slot_of};
use crate::signs::{Sign, expect, limit, skip, syntax, take_first};
use event_model::{MOST_ARGUMENTS, MOST_DEPTH, Name, Pat, Pats};
use rule_grammar::Which;
use rule_lexer::Terminal;
use std::alloc::Global;

/// What may stand for a term: nothing, a variable, or a variable or `_`.
#[derive(Clone, Copy, PartialEq, Eq)]
pub enum Kind {
    Ground,
    Operand,
    Argument,
}

// The term behind a minus sign.
fn negative_at(tokens: &[Terminal]) -> Result<(Pat, &[Terminal]), Stop>
    ensures { NegativeAnswer tokens.now result }
{
    let Some((first, rest)) = take_first(tokens) else {
        return Err(syntax(tokens));
    };
    match first {
        Terminal::Number(n) => Ok((Pat::Num(-(n.value() as i64)), rest)),
        Terminal::Huge => Ok((Pat::Num(i64::MIN), rest)),
        _ => Err(syntax(tokens)),
    }
}

/// The number or text that stands first.
pub fn word_at(tokens: &[Terminal]) -> Result<Option<(Pat, &[Terminal])>, Stop>
    ensures { WordAnswer tokens.now result }
{
    let Some((first, rest)) = take_first(tokens) else {
        return Ok(None);
    };
    match first {
        Terminal::Number(n) => Ok(Some((Pat::Num(n.value() as i64), rest))),
        Terminal::Text(text) => Ok(Some((Pat::Text(text.share()?), rest))),
        Terminal::Minus => {
            let (term, rest) = negative_at(rest)?;
            Ok(Some((term, rest)))
        }
        _ => Ok(None),
    }
}

// What stands for a term and is none, where the first token is that.
fn leaf_at(
    tokens: &[Terminal],
    first: &Terminal,
    kind: Kind,
    ledger: &mut Ledger,
) -> Result<Option<Pat>, Stop>
    requires { Fine (counted ledger.old) }
    ensures { LeafAnswer tokens.now first.now kind (counted ledger.old) (counted ledger.new) result }
{
    match first {
        Terminal::Var(name) => match kind {
            Kind::Ground => Ok(None),
            _ => Ok(Some(Pat::Var(slot_of(ledger, name, tokens)?))),
        },
        Terminal::Wild => match kind {
            Kind::Argument => Ok(Some(Pat::Any)),
            _ => Ok(None),
        },
        _ => Ok(None),
    }
}

// The term that begins with a name.
#[cycle(terms)]
fn named_at<'a>(
    alloc: Global,
    tokens: &'a [Terminal],
    name: &Name,
    rest: &'a [Terminal],
    kind: Kind,
    level: usize,
    ledger: &mut Ledger,
) -> Result<(Pat, &'a [Terminal]), Stop>
    requires named { tokens.now ≡ made.Name name.now ∷ rest.now }
    requires deep { level ≤ MOST_DEPTH }
    requires fine { Fine (counted ledger.old) }
    ensures { Answer (term_level kind) (term_of kind) same tokens.now level (counted ledger.old) (counted ledger.new) result }
{
    let Some(inside) = skip(rest, Sign::Open) else {
        return Ok((Pat::Sym(name.share()?), rest));
    };
    if level >= MOST_DEPTH {
        return Err(limit(Which::TermDepth, rest));
    }
    let (args, rest) = arguments_at(alloc, inside, kind, level + 1, ledger)?;
    Ok((Pat::Comp(name.share()?, Pats::new(alloc, args)?), rest))
}

/// The term that stands first, at some depth of lists.
#[cycle(terms)]
pub fn term_at<'a>(
    alloc: Global,
    tokens: &'a [Terminal],
    kind: Kind,
    level: usize,
    ledger: &mut Ledger,
) -> Result<(Pat, &'a [Terminal]), Stop>
    requires deep { level ≤ MOST_DEPTH }
    requires fine { Fine (counted ledger.old) }
    ensures { Answer (term_level kind) (term_of kind) same tokens.now level (counted ledger.old) (counted ledger.new) result }
{
    if let Some((term, rest)) = word_at(tokens)? {
        return Ok((term, rest));
    }
    let Some((first, rest)) = take_first(tokens) else {
        return Err(syntax(tokens));
    };
    if let Terminal::Name(name) = first {
        return named_at(alloc, tokens, name, rest, kind, level, ledger);
    }
    match leaf_at(tokens, first, kind, ledger)? {
        Some(term) => Ok((term, rest)),
        None => Err(syntax(tokens)),
    }
}

/// The arguments of a list whose bracket is open, up to the bracket that closes it.
#[cycle(terms)]
pub fn arguments_at<'a>(
    alloc: Global,
    tokens: &'a [Terminal],
    kind: Kind,
    level: usize,
    ledger: &mut Ledger,
) -> Result<(Vec<Pat>, &'a [Terminal]), Stop>
    requires deep { level ≤ MOST_DEPTH }
    requires fine { Fine (counted ledger.old) }
    ensures { ListAnswer kind tokens.now level (counted ledger.old) (counted ledger.new) result }
{
    let (first, mut rest) = term_at(alloc, tokens, kind, level, ledger)?;
    let mut args = Vec::new(alloc);
    args.push(first)?;
    while let Some(more) = skip(rest, Sign::Comma) {
        if args.len() >= MOST_ARGUMENTS {
            return Err(limit(Which::TermWidth, rest));
        }
        let (arg, after) = term_at(alloc, more, kind, level, ledger)?;
        args.push(arg)?;
        rest = after;
    }
    let rest = expect(rest, Sign::Close)?;
    Ok((args, rest))
}
