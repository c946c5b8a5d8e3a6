// Terms and their arguments.
ghost use Rattle.std.specs.Prelude.{◌≡◌, ◌≤◌, ◌<◌, ◌*◌, ◌-◌, ◌+◌, ℕ, true, false, length, drop, IfOk, OnOk, ◌++◌, ◌∷◌, []};
ghost use Rattle.term_reader.specs.Grammar.{fits};
ghost use Rattle.term_reader.specs.Readings.{TreeAt, ArgAt, ArgsAt, LeafAt, NumberAt, NegativeAt, SignAt, begins, is_lower, is_open, is_blank};

use crate::faults::TermFault;
use crate::numbers::{digits_at, signed};
use crate::peeking::{Mark, blanks_end, mark_at, opens, sign_at};
use crate::signs::Sign;
use crate::texts::text_at;
use crate::words::name_at;
use event_model::{MOST_ARGUMENTS, MOST_DEPTH, Shared, Term};
use std::alloc::{AllocError, Global};

// The rest of a number, behind its first digit.
fn number_rest(
    bytes: &[u8],
    at: usize,
    negative: bool,
    first: u8,
) -> Result<(Term, usize), TermFault>
    requires inside { at ≤ length bytes.now }
    requires digit { first < 10 }
    ensures { NumberAt bytes.now at negative first result }
{
    let (size, end) = digits_at(bytes, at, negative, u64::from(first))?;
    Ok((Term::Num(signed(negative, size)), end))
}

// A number, behind its minus.
fn negative_at(bytes: &[u8], at: usize) -> Result<(Term, usize), TermFault>
    requires { at ≤ length bytes.now }
    ensures { NegativeAt bytes.now at result }
{
    match sign_at(bytes, at) {
        Some(Sign::Digit(first)) => number_rest(bytes, at + 1, true, first),
        _ => Err(TermFault::Syntax(at)),
    }
}

// A text with its quotes.
fn quoted_at(alloc: Global, bytes: &[u8], at: usize) -> Result<(Term, usize), TermFault>
    requires { SignAt bytes.now at Sign.Quote }
    ensures { LeafAt bytes.now at result }
{
    let (text, end) = text_at(alloc, bytes, at + 1)?;
    Ok((Term::Text(text), end))
}

/// The term at a place, which has this depth at least.
#[cycle(tree)]
pub(crate) fn tree_at(
    alloc: Global,
    bytes: &[u8],
    at: usize,
    depth: usize,
) -> Result<(Term, usize), TermFault>
    requires inside { at ≤ length bytes.now }
    requires depth { depth ≤ MOST_DEPTH }
    requires bare { begins is_blank (drop at bytes.now) ≡ false }
    ensures { TreeAt bytes.now at depth result }
{
    match sign_at(bytes, at) {
        Some(Sign::Lower(_)) => named_at(alloc, bytes, at, depth),
        Some(Sign::Digit(first)) => number_rest(bytes, at + 1, false, first),
        Some(Sign::Minus) => negative_at(bytes, at + 1),
        Some(Sign::Quote) => quoted_at(alloc, bytes, at),
        _ => Err(TermFault::Syntax(at)),
    }
}

// A name or a compound.
#[cycle(tree)]
fn named_at(
    alloc: Global,
    bytes: &[u8],
    at: usize,
    depth: usize,
) -> Result<(Term, usize), TermFault>
    requires inside { at < length bytes.now }
    requires depth { depth ≤ MOST_DEPTH }
    requires lower { begins is_lower (drop at bytes.now) ≡ true }
    ensures { TreeAt bytes.now at depth result }
{
    let (name, end) = name_at(alloc, bytes, at)?;
    if !opens(bytes, end) {
        return Ok((Term::Sym(name), end));
    }
    let (args, close) = args_at(alloc, bytes, end, depth)?;
    Ok((Term::Comp(name, Shared::new(alloc, args)?), close))
}

/// The arguments in brackets at a place, of a name that has this depth at least.
#[cycle(tree)]
pub(crate) fn args_at(
    alloc: Global,
    bytes: &[u8],
    at: usize,
    depth: usize,
) -> Result<(Vec<Term>, usize), TermFault>
    requires inside { at ≤ length bytes.now }
    requires depth { depth ≤ MOST_DEPTH }
    requires open { begins is_open (drop at bytes.now) ≡ true }
    ensures { ArgsAt bytes.now at depth result }
{
    if depth >= MOST_DEPTH {
        return Err(TermFault::TooDeep(at));
    }
    let mut args = Vec::new(alloc);
    let mut next = at + 1;
    loop {
        let (arg, end) = arg_at(alloc, bytes, next, depth + 1)?;
        keep(&mut args, arg)?;
        match mark_at(bytes, end) {
            Some(Mark::Last) => return Ok((args, end + 1)),
            Some(Mark::More) => {
                if args.len() >= MOST_ARGUMENTS {
                    return Err(TermFault::TooWide(end));
                }
                next = end + 1;
            }
            None => return Err(TermFault::Syntax(end)),
        }
    }
}

fn keep(args: &mut Vec<Term>, arg: Term) -> Result<(), AllocError>
    ensures { OnOk result (args.new.items ≡ args.old.items ++ arg ∷ []) }
{
    args.push(arg)?;
    Ok(())
}

// An argument with the blanks before and behind it.
#[cycle(tree)]
fn arg_at(alloc: Global, bytes: &[u8], at: usize, depth: usize) -> Result<(Term, usize), TermFault>
    requires inside { at ≤ length bytes.now }
    requires depth { depth ≤ MOST_DEPTH }
    ensures read { ArgAt bytes.now at depth result }
    ensures over { IfOk result (λ x. begins is_blank (drop x.1 bytes.now) ≡ false) }
{
    let start = blanks_end(bytes, at);
    let (arg, end) = tree_at(alloc, bytes, start, depth)?;
    Ok((arg, blanks_end(bytes, end)))
}
