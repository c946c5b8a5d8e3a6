//! The first token of some tokens.

ghost use Rattle.std.specs.Prelude.{◌≡◌, ◌∷◌, [], length, IfOk, IfErr, OnErr, MatchOption, Some};
ghost use Rattle.rule_grammar.specs.Values.{adding_value, scaling_value};
ghost use Rattle.rule_parser.specs.Signs.{sign_of, terminal_of, adding_of, scaling_of, joint_terminal, bound_terminal, adding_terminal, scaling_terminal, Lacks, LacksJoint, LacksBound, LacksAdding, LacksScaling, LacksCompare};
ghost use Rattle.rule_lexer.specs.declared.terminals.Terminal.TheVariants as made;
ghost use Rattle.rule_grammar.specs.declared.faults.Fault.TheVariants as fault;
ghost use Rattle.rule_grammar.specs.declared.faults.Which.{Which};

use crate::faults::Stop;
use event_model::Op;
use rule_ast::{Calc, Cmp};
use rule_grammar::{Fault, Which};
use rule_lexer::Terminal;

/// A token that is a word or a sign of its own.
#[derive(Clone, Copy, PartialEq, Eq)]
pub enum Sign {
    Arrow,
    Bang,
    Both,
    Close,
    Comma,
    Either,
    End,
    Length,
    Limits,
    Minus,
    Not,
    Open,
    Show,
    Slash,
    Square,
    Where,
    Within,
}

/// What stands between two parts of a chain.
#[derive(Clone, Copy)]
pub enum Joint {
    Span(Op),
    Or,
}

/// What stands before a length.
#[derive(Clone, Copy)]
pub enum Bound {
    Exact,
    Most,
}

/// What stands between two products.
#[derive(Clone, Copy)]
pub enum Adding {
    Plus,
    Minus,
}

/// What stands between two operands.
#[derive(Clone, Copy)]
pub enum Scaling {
    Star,
    Slash,
    Percent,
}

impl Adding {
    pub fn calc(self) -> Calc
        ensures { result ≡ adding_value (adding_of self) }
    {
        match self {
            Adding::Plus => Calc::Add,
            Adding::Minus => Calc::Sub,
        }
    }
}

impl Scaling {
    pub fn calc(self) -> Calc
        ensures { result ≡ scaling_value (scaling_of self) }
    {
        match self {
            Scaling::Star => Calc::Mul,
            Scaling::Slash => Calc::Div,
            Scaling::Percent => Calc::Rem,
        }
    }
}

pub fn sign_of(terminal: &Terminal) -> Option<Sign>
    ensures { result ≡ sign_of terminal.now }
{
    match terminal {
        Terminal::Arrow => Some(Sign::Arrow),
        Terminal::Bang => Some(Sign::Bang),
        Terminal::Both => Some(Sign::Both),
        Terminal::Close => Some(Sign::Close),
        Terminal::Comma => Some(Sign::Comma),
        Terminal::Either => Some(Sign::Either),
        Terminal::End => Some(Sign::End),
        Terminal::Length => Some(Sign::Length),
        Terminal::Limits => Some(Sign::Limits),
        Terminal::Minus => Some(Sign::Minus),
        Terminal::Not => Some(Sign::Not),
        Terminal::Open => Some(Sign::Open),
        Terminal::Show => Some(Sign::Show),
        Terminal::Slash => Some(Sign::Slash),
        Terminal::Square => Some(Sign::Square),
        Terminal::Where => Some(Sign::Where),
        Terminal::Within => Some(Sign::Within),
        _ => None,
    }
}

pub fn take_first(tokens: &[Terminal]) -> Option<(&Terminal, &[Terminal])>
    ensures { MatchOption result (tokens.now ≡ []) (λ x. tokens.now ≡ x.0.now ∷ x.1.now) }
{
    tokens.split_first()
}

/// What stands behind the sign, where this stands first.
pub fn skip(tokens: &[Terminal], wanted: Sign) -> Option<&[Terminal]>
    ensures { MatchOption result (Lacks wanted tokens.now) (λ rest. tokens.now ≡ terminal_of wanted ∷ rest.now) }
{
    let (first, rest) = take_first(tokens)?;
    match sign_of(first) {
        Some(sign) if sign == wanted => Some(rest),
        _ => None,
    }
}

pub fn syntax(tokens: &[Terminal]) -> Stop
    ensures { result ≡ Stop.Fault (fault.Syntax (length tokens.now)) }
{
    Stop::Fault(Fault::Syntax(tokens.len()))
}

pub fn limit(which: Which, tokens: &[Terminal]) -> Stop
    ensures { result ≡ Stop.Fault (fault.Limit which (length tokens.now)) }
{
    Stop::Fault(Fault::Limit(which, tokens.len()))
}

pub fn expect(tokens: &[Terminal], wanted: Sign) -> Result<&[Terminal], Stop>
    ensures ok { IfOk result (λ rest. tokens.now ≡ terminal_of wanted ∷ rest.now) }
    ensures err { IfErr result (λ e. e ≡ Stop.Fault (fault.Syntax (length tokens.now))) }
    ensures lacks { OnErr result (Lacks wanted tokens.now) }
{
    match skip(tokens, wanted) {
        Some(rest) => Ok(rest),
        None => Err(syntax(tokens)),
    }
}

pub fn take_joint(tokens: &[Terminal]) -> Option<(Joint, &[Terminal])>
    ensures { MatchOption result (LacksJoint tokens.now) (λ x. tokens.now ≡ joint_terminal x.0 ∷ x.1.now) }
{
    let (first, rest) = take_first(tokens)?;
    match first {
        Terminal::Op(op) => Some((Joint::Span(*op), rest)),
        Terminal::Or => Some((Joint::Or, rest)),
        _ => None,
    }
}

pub fn take_adding(tokens: &[Terminal]) -> Option<(Adding, &[Terminal])>
    ensures { MatchOption result (LacksAdding tokens.now) (λ x. tokens.now ≡ adding_terminal x.0 ∷ x.1.now) }
{
    let (first, rest) = take_first(tokens)?;
    match first {
        Terminal::Plus => Some((Adding::Plus, rest)),
        Terminal::Minus => Some((Adding::Minus, rest)),
        _ => None,
    }
}

pub fn take_scaling(tokens: &[Terminal]) -> Option<(Scaling, &[Terminal])>
    ensures { MatchOption result (LacksScaling tokens.now) (λ x. tokens.now ≡ scaling_terminal x.0 ∷ x.1.now) }
{
    let (first, rest) = take_first(tokens)?;
    match first {
        Terminal::Star => Some((Scaling::Star, rest)),
        Terminal::Slash => Some((Scaling::Slash, rest)),
        Terminal::Percent => Some((Scaling::Percent, rest)),
        _ => None,
    }
}

pub fn take_compare(tokens: &[Terminal]) -> Option<(Cmp, &[Terminal])>
    ensures { MatchOption result (LacksCompare tokens.now) (λ x. tokens.now ≡ made.Compare x.0 ∷ x.1.now) }
{
    let (first, rest) = take_first(tokens)?;
    match first {
        Terminal::Compare(cmp) => Some((*cmp, rest)),
        _ => None,
    }
}

pub fn take_bound(tokens: &[Terminal]) -> Option<(Bound, &[Terminal])>
    ensures { MatchOption result (LacksBound tokens.now) (λ x. tokens.now ≡ bound_terminal x.0 ∷ x.1.now) }
{
    let (first, rest) = take_first(tokens)?;
    match first {
        Terminal::Length => Some((Bound::Exact, rest)),
        Terminal::Within => Some((Bound::Most, rest)),
        _ => None,
    }
}
