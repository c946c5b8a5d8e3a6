//! What a byte may be in a token, and what bytes begin with.

ghost use Rattle.std.specs.Prelude.{◌≡◌};
ghost use Rattle.std.specs.Char.{is_ascii_digit};
ghost use Rattle.rule_lexer.specs.Sorts.{is_word, is_blank, begins};

pub fn is_word(byte: u8) -> bool
    ensures { result ≡ is_word byte }
{
    byte.is_ascii_alphanumeric() || byte == b'_'
}

pub fn is_blank(byte: u8) -> bool
    ensures { result ≡ is_blank byte }
{
    byte == b' ' || byte == b'\t' || byte == b'\r' || byte == b'\n'
}

pub fn begins_with_digit(bytes: &[u8]) -> bool
    ensures { result ≡ begins is_ascii_digit bytes.now }
{
    match bytes.first() {
        Some(byte) => byte.is_ascii_digit(),
        None => false,
    }
}

pub fn begins_with_word(bytes: &[u8]) -> bool
    ensures { result ≡ begins is_word bytes.now }
{
    match bytes.first() {
        Some(byte) => is_word(*byte),
        None => false,
    }
}
