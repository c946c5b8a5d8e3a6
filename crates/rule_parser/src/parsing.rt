//! The rules of a text.

ghost use Rattle.std.specs.Prelude.{◌≡◌, ◌≤◌, ℕ, List, length, IfOk};
ghost use Rattle.rule_ast.specs.Trees.{PlainStatement};
ghost use Rattle.rule_ast.specs.Plain.{plain_rules};
ghost use Rattle.rule_ast.specs.Shaped.{IsShaped};
ghost use Rattle.rule_ast.specs.Shown.{shown_names};
ghost use Rattle.rule_lexer.specs.Lexing.{Lexing};
ghost use Rattle.rule_grammar.specs.Files.{Holds};
ghost use Rattle.rule_parser.specs.Answers.{Answers, Gives, Parsed, place_of};

use crate::faults::{ParseFault, Stop};
use crate::statements::statements_of;
use rule_ast::RuleSet;
use rule_grammar::Fault;
use rule_lexer::{Lexed, lex};
use std::alloc::Global;

// The place of the token with which so many are left, or of the end.
fn place_of(places: &[usize], end: usize, left: usize) -> usize
    ensures { result ≡ place_of places.now end left }
{
    match places.get(places.len().saturating_sub(left)) {
        Some(place) => *place,
        None => end,
    }
}

// The rules of a text whose tokens were found.
fn parsed(alloc: Global, lexed: &Lexed) -> Result<RuleSet, ParseFault>
    ensures { Parsed lexed.now.terminals.items lexed.now.places.items lexed.now.end lexed.now.whole result }
{
    match statements_of(alloc, &lexed.terminals) {
        Ok(statements) => {
            if lexed.whole {
                Ok(RuleSet { statements })
            } else {
                Err(ParseFault::Syntax(lexed.end))
            }
        }
        Err(Stop::Memory) => Err(ParseFault::Memory),
        Err(Stop::Fault(Fault::Syntax(left))) => {
            Err(ParseFault::Syntax(place_of(&lexed.places, lexed.end, left)))
        }
        Err(Stop::Fault(Fault::Limit(which, left))) => {
            Err(ParseFault::Limit(which, place_of(&lexed.places, lexed.end, left)))
        }
    }
}

/// The rules that a text holds.
pub fn parse(alloc: Global, text: &str) -> Result<RuleSet, ParseFault>
    // It holds them, or the fault is the first one.
    ensures answers { Answers text.now result }
    // Nothing that it holds is refused.
    ensures only { (rules : List PlainStatement) → Holds text.now rules → Gives rules result }
    ensures shaped { IfOk result (λ r. IsShaped (plain_rules r)) }
    ensures few_shown { IfOk result (λ r. length (shown_names (plain_rules r)) ≤ length text.now) }
{
    let lexed = lex(alloc, text)?;
    parsed(alloc, &lexed)
}

/// No text holds two lists of rules.
pub fn one_meaning()
    ensures { (text : List ℕ) (rules others : List PlainStatement) → Holds text rules → Holds text others → rules ≡ others }
{}
