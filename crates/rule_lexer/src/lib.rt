//! The tokens of a rule file: the next one, the longest at its place, and all of a text as the grammar sees them.
//!
//! A lexeme is the text of a token at its place. A terminal is a token without its place: its kind with the value that its lexeme says.
#![tactic(auto)]

mod lexing;
mod numbers;
mod scanning;
mod signs;
mod sorts;
mod tables;
mod terminals;
mod texts;
mod tokens;
mod unescaping;
mod words;
mod writing;

pub use lexing::{Lexed, lex, one_lexing, terminals_are_proper};
pub use scanning::{next_token, one_kind};
pub use terminals::{Natural, Terminal};
pub use tokens::{LexFault, LexKind, Mark, NUMBER_LIMIT, Token, TokenKind, Word};
pub use writing::written_is_read;
