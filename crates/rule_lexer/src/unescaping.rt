// What a text says.
ghost use Rattle.std.specs.Prelude.{◌≡◌, ◌<◌, true, false, IfOk, slice_index};
ghost use Rattle.rule_lexer.specs.Spelling.{are_characters};
ghost use Rattle.rule_lexer.specs.Lexing.{escaped_byte, unescaped};

use event_model::Name;
use std::alloc::{AllocError, Global};

// What the byte behind a backslash stands for, where this stands behind it.
fn escaped_char(behind: &str) -> char
    requires { are_characters true behind.now ≡ true }
    ensures value { result ≡ escaped_byte (slice_index behind.now 0) }
    ensures ascii { result < 128 }
{
    match behind.as_bytes()[0] {
        b'n' => '\n',
        b't' => '\t',
        byte => char::from(byte),
    }
}

/// The characters of a text with the escapes read.
pub(crate) fn unescaped(alloc: Global, characters: &str) -> Result<Name, AllocError>
    requires { are_characters false characters.now ≡ true }
    ensures { IfOk result (λ n. n ≡ unescaped false characters.now) }
{
    let mut text = String::new(alloc);
    let mut rest = characters;
    while let Some((plain, behind)) = rest.split_once('\\') {
        text.push_str(plain)?;
        text.push(escaped_char(behind))?;
        rest = &behind[1..];
    }
    text.push_str(rest)?;
    Name::from_string(alloc, text)
}
