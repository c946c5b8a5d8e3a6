//! All tokens of a text.

ghost use Rattle.std.specs.Prelude.{◌≡◌, ◌<◌, ◌≤◌, ◌-◌, ℕ, Bool, true, List, [], length, IfOk, IsCharBoundary, slice_range};
ghost use Rattle.std.specs.List.{list_all};
ghost use Rattle.rule_lexer.specs.Places.{TokenAt};
ghost use Rattle.rule_lexer.specs.declared.terminals.Terminal.{Terminal};
ghost use Rattle.rule_lexer.specs.Lexing.{terminal_of, Lexing};
ghost use Rattle.rule_lexer.specs.Writing.{is_proper};

use crate::scanning::next_token;
use crate::tables::{mark_terminal, word_terminal};
use crate::terminals::{Natural, Terminal};
use crate::tokens::{NUMBER_LIMIT, Token, TokenKind};
use crate::unescaping::unescaped;
use event_model::Name;
use std::alloc::{AllocError, Global};

/// The tokens of a text up to its end or to the first place where none begins.
#[derive(Drop)]
pub struct Lexed {
    pub terminals: Vec<Terminal>,
    /// The byte at which each of them begins.
    pub places: Vec<usize>,
    /// The length of the text, or the place where no token begins.
    pub end: usize,
    /// Whether the tokens go to the end of the text.
    pub whole: bool,
}

fn number_terminal(value: u64) -> Terminal
    requires { value ≤ NUMBER_LIMIT }
    ensures { result ≡ terminal_of (TokenKind.Number value) [] }
{
    if value == NUMBER_LIMIT {
        Terminal::Huge
    } else {
        Terminal::Number(Natural::new(value))
    }
}

// What a token of the text stands for.
fn terminal_at(alloc: Global, text: &str, token: Token) -> Result<Terminal, AllocError>
    requires stands { TokenAt text.now token.kind token.from token.to }
    requires from { IsCharBoundary text.now token.from }
    requires to { IsCharBoundary text.now token.to }
    ensures { IfOk result (λ l. l ≡ terminal_of token.kind (slice_range text.now token.from token.to)) }
{
    match token.kind {
        TokenKind::Name => Ok(Terminal::Name(Name::new(alloc, &text[token.from..token.to])?)),
        TokenKind::Var => Ok(Terminal::Var(Name::new(alloc, &text[token.from..token.to])?)),
        TokenKind::Word(word) => Ok(word_terminal(word)),
        TokenKind::Wild => Ok(Terminal::Wild),
        TokenKind::Number(value) => Ok(number_terminal(value)),
        TokenKind::Text => Ok(Terminal::Text(unescaped(
            alloc,
            &text[token.from + 1..token.to - 1],
        )?)),
        TokenKind::Mark(mark) => Ok(mark_terminal(mark)),
    }
}

/// The tokens of a text, and where each begins.
pub fn lex(alloc: Global, text: &str) -> Result<Lexed, AllocError>
    ensures { IfOk result (λ l. Lexing text.now 0 l.terminals.items l.places.items l.end l.whole) }
{
    let mut terminals = Vec::new(alloc);
    let mut places = Vec::new(alloc);
    let mut at = 0;
    loop {
        match next_token(text, at) {
            Ok(Some(token)) => {
                terminals.push(terminal_at(alloc, text, token)?)?;
                places.push(token.from)?;
                at = token.to;
            }
            Ok(None) => {
                return Ok(Lexed {
                    terminals,
                    places,
                    end: text.len(),
                    whole: true,
                });
            }
            Err(fault) => {
                return Ok(Lexed {
                    terminals,
                    places,
                    end: fault.at,
                    whole: false,
                });
            }
        }
    }
}

/// A text has its tokens in one way, and no more of them than bytes.
pub fn one_lexing()
    ensures same { (text : List ℕ) (at : ℕ) (ts us : List Terminal) (ps qs : List ℕ) (m n : ℕ) (v w : Bool)
        → Lexing text at ts ps m v → Lexing text at us qs n w → (ts ≡ us) × (ps ≡ qs) × (m ≡ n) × (v ≡ w) }
    ensures few { (text : List ℕ) (at : ℕ) (ts : List Terminal) (ps : List ℕ) (end : ℕ) (whole : Bool)
        → Lexing text at ts ps end whole → length ts ≤ length text - at }
{}

/// Whatever is read can be written.
pub fn terminals_are_proper()
    ensures { (text : List ℕ) (at : ℕ) (ts : List Terminal) (places : List ℕ) (end : ℕ) (whole : Bool)
        → Lexing text at ts places end whole → list_all is_proper ts ≡ true }
{}
