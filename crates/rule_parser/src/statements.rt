//! Statements of a rule file.

ghost use Rattle.std.specs.Prelude.{◌≡◌, ◌∷◌, ◌≤◌, List, IfOk};
ghost use Rattle.rule_ast.specs.Plain.{plain_rule};
ghost use Rattle.rule_grammar.specs.Machine.{State.HeadName, State.WantItem, ItemsHead.FirstShown};
ghost use Rattle.rule_parser.specs.Steps.{StatementAnswer, ItemAnswer, NextAnswer, WholeAnswer, clause_of, show_of, named_state, shown_state};

use crate::faults::Stop;
use crate::heads::head_at;
use crate::ledger::Ledger;
use crate::patterns::pattern_at;
use crate::signs::{Sign, expect, limit, skip, syntax, take_first};
use event_model::{MOST_ARGUMENTS, Name, NameArity};
use indexmap::IndexSet;
use rule_ast::{MOST_STATEMENTS, Rule, Statement};
use rule_grammar::Which;
use rule_lexer::Terminal;
use std::alloc::{AllocError, Global};

// The names in the order in which they came.
fn in_list(alloc: Global, names: IndexSet<Name>) -> Result<Vec<Name>, AllocError>
    ensures { IfOk result (λ list. list.items ≡ names.keys) }
{
    let mut list = Vec::new(alloc);
    for name in names {
        list.push(name)?;
    }
    Ok(list)
}

// The rule whose head's name stood before.
fn rule_at<'a>(
    alloc: Global,
    name: &Name,
    tokens: &'a [Terminal],
) -> Result<(Rule, &'a [Terminal]), Stop>
    ensures { StatementAnswer clause_of (named_state name.now) tokens.now result }
{
    let mut ledger = Ledger {
        parts: 0,
        names: IndexSet::new(alloc),
    };
    let (head, rest) = head_at(alloc, name, tokens, &mut ledger)?;
    let (body, rest) = pattern_at(alloc, rest, 0, &mut ledger)?;
    let rest = expect(rest, Sign::End)?;
    let body = Box::into_inner(body);
    let Ledger { parts: _, names } = ledger;
    let rule = Rule {
        head,
        body,
        vars: in_list(alloc, names)?,
    };
    Ok((rule, rest))
}

// A shown name with its number of arguments.
fn item_at(tokens: &[Terminal]) -> Result<(NameArity, &[Terminal]), Stop>
    ensures { ItemAnswer tokens.now result }
{
    let Some((Terminal::Name(name), rest)) = take_first(tokens) else {
        return Err(syntax(tokens));
    };
    let rest = expect(rest, Sign::Slash)?;
    let Some((Terminal::Number(n), behind)) = take_first(rest) else {
        return Err(syntax(rest));
    };
    let arity = n.value();
    if arity > MOST_ARGUMENTS as u64 {
        return Err(limit(Which::TermWidth, rest));
    }
    let name = name.share()?;
    let arity = arity as u8;
    Ok((NameArity { name, arity }, behind))
}

// The names of a `show`, whose word stood before.
fn show_at(alloc: Global, tokens: &[Terminal]) -> Result<(Vec<NameArity>, &[Terminal]), Stop>
    ensures { StatementAnswer show_of shown_state tokens.now result }
{
    let (first, mut rest) = item_at(tokens)?;
    let mut names = Vec::new(alloc);
    names.push(first)?;
    while let Some(more) = skip(rest, Sign::Comma) {
        let (name, after) = item_at(more)?;
        names.push(name)?;
        rest = after;
    }
    let rest = expect(rest, Sign::End)?;
    Ok((names, rest))
}

// The statement that begins with a token, behind so many.
fn statement_at<'a>(
    alloc: Global,
    tokens: &'a [Terminal],
    first: &Terminal,
    rest: &'a [Terminal],
    done: usize,
) -> Result<(Statement, &'a [Terminal]), Stop>
    requires { tokens.now ≡ first.now ∷ rest.now }
    ensures { NextAnswer tokens.now done result }
{
    match first {
        Terminal::Name(name) => {
            if done >= MOST_STATEMENTS {
                return Err(limit(Which::Statements, tokens));
            }
            let (rule, rest) = rule_at(alloc, name, rest)?;
            Ok((Statement::Rule(rule), rest))
        }
        Terminal::Show => {
            if done >= MOST_STATEMENTS {
                return Err(limit(Which::Statements, tokens));
            }
            let (names, rest) = show_at(alloc, rest)?;
            Ok((Statement::Show(names), rest))
        }
        _ => Err(syntax(tokens)),
    }
}

/// The statements that all the tokens are.
pub fn statements_of(alloc: Global, tokens: &[Terminal]) -> Result<Vec<Statement>, Stop>
    ensures { WholeAnswer tokens.now result }
{
    let mut statements = Vec::new(alloc);
    let mut rest = tokens;
    while let Some((first, behind)) = take_first(rest) {
        let (statement, after) = statement_at(alloc, rest, first, behind, statements.len())?;
        statements.push(statement)?;
        rest = after;
    }
    Ok(statements)
}
