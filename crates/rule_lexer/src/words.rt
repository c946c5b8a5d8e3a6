//! Names, variables and reserved words.

ghost use Rattle.std.specs.Prelude.{◌≡◌, ℕ, true, List};
ghost use Rattle.std.specs.List.{list_all, prefix_len};
ghost use Rattle.rule_lexer.specs.Sorts.{is_word, is_letter, begins};
ghost use Rattle.rule_lexer.specs.Spelling.{IsToken};
ghost use Rattle.rule_lexer.specs.Reading.{word_of, LongestOf};

use crate::sorts::is_word;
use crate::tokens::{TokenKind, Word};

fn word_len(bytes: &[u8]) -> usize
    ensures { result ≡ prefix_len is_word bytes.now }
{
    bytes.iter().take_while(|byte| is_word(**byte)).count()
}

fn reserved(bytes: &[u8]) -> Option<Word>
    ensures { result ≡ word_of bytes.now }
{
    match bytes {
        b"SEQ" => Some(Word::Seq),
        b"AND" => Some(Word::And),
        b"PAR" => Some(Word::Par),
        b"OR" => Some(Word::Or),
        b"EQUALS" => Some(Word::Equals),
        b"MEETS" => Some(Word::Meets),
        b"DURING" => Some(Word::During),
        b"STARTS" => Some(Word::Starts),
        b"FINISHES" => Some(Word::Finishes),
        b"NOT" => Some(Word::Not),
        b"WHERE" => Some(Word::Where),
        b"WITHIN" => Some(Word::Within),
        b"show" => Some(Word::Show),
        _ => None,
    }
}

fn word_kind(bytes: &[u8]) -> TokenKind
    requires letter { begins is_letter bytes.now ≡ true }
    requires word { list_all is_word bytes.now ≡ true }
    ensures { (rest : List ℕ) → IsToken result bytes.now rest }
{
    if let Some(word) = reserved(bytes) {
        return TokenKind::Word(word);
    }
    if bytes[0].is_ascii_lowercase() {
        TokenKind::Name
    } else {
        TokenKind::Var
    }
}

/// The word that the bytes begin with, and how long it is.
pub fn word_at(bytes: &[u8]) -> (TokenKind, usize)
    requires { begins is_letter bytes.now ≡ true }
    ensures { LongestOf bytes.now result.0 result.1 }
{
    let len = word_len(bytes);
    let word = &bytes[..len];
    (word_kind(word), len)
}
