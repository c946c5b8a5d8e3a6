//! Heads of rules.

ghost use Rattle.std.specs.Prelude.{◌≡◌, ◌∷◌, List};
ghost use Rattle.rule_lexer.specs.declared.terminals.Terminal.TheVariants as made;
ghost use Rattle.rule_grammar.specs.Marks.{nothing_counted};
ghost use Rattle.rule_grammar.specs.Values.{head_term_value};
ghost use Rattle.rule_parser.specs.Steps.{counted, Fine, same, Answer, HeadListAnswer, HeadAnswer, head_term_level};

use crate::faults::Stop;
use crate::ledger::{Ledger, slot_of};
use crate::signs::{Sign, expect, limit, skip, syntax, take_first};
use crate::terms::{Kind, arguments_at, word_at};
use event_model::{MOST_ARGUMENTS, Name, Pat, PatAtom, Pats};
use rule_grammar::Which;
use rule_lexer::Terminal;
use std::alloc::Global;

// The term of a head that begins with a name.
fn named_at<'a>(
    alloc: Global,
    tokens: &'a [Terminal],
    name: &Name,
    rest: &'a [Terminal],
    ledger: &mut Ledger,
) -> Result<(Pat, &'a [Terminal]), Stop>
    requires named { tokens.now ≡ made.Name name.now ∷ rest.now }
    requires fine { Fine (counted ledger.old) }
    ensures { Answer head_term_level head_term_value same tokens.now 0 (counted ledger.old) (counted ledger.new) result }
{
    let Some(inside) = skip(rest, Sign::Open) else {
        return Ok((Pat::Sym(name.share()?), rest));
    };
    let (args, rest) = arguments_at(alloc, inside, Kind::Ground, 2, ledger)?;
    Ok((Pat::Comp(name.share()?, Pats::new(alloc, args)?), rest))
}

// The term of a head that stands first: a variable, or a term without variables.
fn term_at<'a>(
    alloc: Global,
    tokens: &'a [Terminal],
    ledger: &mut Ledger,
) -> Result<(Pat, &'a [Terminal]), Stop>
    requires { Fine (counted ledger.old) }
    ensures { Answer head_term_level head_term_value same tokens.now 0 (counted ledger.old) (counted ledger.new) result }
{
    if let Some((term, rest)) = word_at(tokens)? {
        return Ok((term, rest));
    }
    let Some((first, rest)) = take_first(tokens) else {
        return Err(syntax(tokens));
    };
    match first {
        Terminal::Var(name) => Ok((Pat::Var(slot_of(ledger, name, tokens)?), rest)),
        Terminal::Name(name) => named_at(alloc, tokens, name, rest, ledger),
        _ => Err(syntax(tokens)),
    }
}

// The terms of a head whose bracket is open, up to the bracket that closes it.
fn terms_at<'a>(
    alloc: Global,
    tokens: &'a [Terminal],
    ledger: &mut Ledger,
) -> Result<(Vec<Pat>, &'a [Terminal]), Stop>
    requires { Fine (counted ledger.old) }
    ensures { HeadListAnswer tokens.now (counted ledger.old) (counted ledger.new) result }
{
    let (first, mut rest) = term_at(alloc, tokens, ledger)?;
    let mut args = Vec::new(alloc);
    args.push(first)?;
    while let Some(more) = skip(rest, Sign::Comma) {
        if args.len() >= MOST_ARGUMENTS {
            return Err(limit(Which::TermWidth, rest));
        }
        let (arg, after) = term_at(alloc, more, ledger)?;
        args.push(arg)?;
        rest = after;
    }
    let rest = expect(rest, Sign::Close)?;
    Ok((args, rest))
}

/// The head whose name stood before, up to the arrow behind it.
pub fn head_at<'a>(
    alloc: Global,
    name: &Name,
    tokens: &'a [Terminal],
    ledger: &mut Ledger,
) -> Result<(PatAtom, &'a [Terminal]), Stop>
    requires { counted ledger.old ≡ nothing_counted }
    ensures { HeadAnswer name.now tokens.now (counted ledger.new) result }
{
    let Some(inside) = skip(tokens, Sign::Open) else {
        let rest = expect(tokens, Sign::Arrow)?;
        let args = Pats::new(alloc, Vec::new(alloc))?;
        let name = name.share()?;
        return Ok((PatAtom { name, args }, rest));
    };
    let (args, rest) = terms_at(alloc, inside, ledger)?;
    let rest = expect(rest, Sign::Arrow)?;
    let args = Pats::new(alloc, args)?;
    let name = name.share()?;
    Ok((PatAtom { name, args }, rest))
}
