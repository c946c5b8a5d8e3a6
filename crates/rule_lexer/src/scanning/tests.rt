use crate::scanning::next_token;
use crate::tokens::{LexKind, Mark, TokenKind, Word};
use std::process::Abort;
use std::test::Fail;

// The next token's kind and places, where one stands.
fn token(rt: &impl Abort, text: &str, at: usize) -> Option<(TokenKind, usize, usize)> {
    assert!(rt; text.is_char_boundary(at));
    match next_token(text, at) {
        Ok(Some(token)) => Some((token.kind, token.from, token.to)),
        _ => None,
    }
}

// The place and kind of a fault, where there is one.
fn fault(rt: &impl Abort, text: &str) -> Option<(usize, LexKind)> {
    assert!(rt; text.is_char_boundary(0));
    match next_token(text, 0) {
        Ok(_) => None,
        Err(fault) => Some((fault.at, fault.kind)),
    }
}

#[test]
fn uses_of_the_stop(rt: HostRuntime) -> Result<(), Fail> {
    let text = "(a).4.";
    let length = Some((TokenKind::Mark(Mark::Length), 3, 4));
    assert_eq!(rt; token(&rt, text, 3), length);
    assert_eq!(rt; token(&rt, text, 4), Some((TokenKind::Number(4), 4, 5)));
    let end = Some((TokenKind::Mark(Mark::End), 5, 6));
    assert_eq!(rt; token(&rt, text, 5), end);
    assert!(rt; text.is_char_boundary(6));
    assert!(rt; matches!(next_token(text, 6), Ok(None)));
    Ok(())
}

#[test]
fn each_kind(rt: HostRuntime) -> Result<(), Fail> {
    let table = [
        ("a_9Z b", TokenKind::Name, 0, 4),
        ("showy", TokenKind::Name, 0, 5),
        (" \t\r\nSEQUENCE", TokenKind::Var, 4, 12),
        ("# a\n#b\nX", TokenKind::Var, 7, 8),
        ("_ ", TokenKind::Wild, 0, 1),
        ("007", TokenKind::Number(7), 0, 3),
        ("9223372036854775808", TokenKind::Number(1 << 63), 0, 19),
        ("\"aé\\n\\\"#\"z", TokenKind::Text, 0, 10),
        ("SEQ", TokenKind::Word(Word::Seq), 0, 3),
        ("AND", TokenKind::Word(Word::And), 0, 3),
        ("PAR", TokenKind::Word(Word::Par), 0, 3),
        ("OR", TokenKind::Word(Word::Or), 0, 2),
        ("EQUALS", TokenKind::Word(Word::Equals), 0, 6),
        ("MEETS", TokenKind::Word(Word::Meets), 0, 5),
        ("DURING", TokenKind::Word(Word::During), 0, 6),
        ("STARTS", TokenKind::Word(Word::Starts), 0, 6),
        ("FINISHES", TokenKind::Word(Word::Finishes), 0, 8),
        ("NOT", TokenKind::Word(Word::Not), 0, 3),
        ("WHERE", TokenKind::Word(Word::Where), 0, 5),
        ("WITHIN", TokenKind::Word(Word::Within), 0, 6),
        ("show", TokenKind::Word(Word::Show), 0, 4),
        ("(", TokenKind::Mark(Mark::OpenRound), 0, 1),
        (")", TokenKind::Mark(Mark::CloseRound), 0, 1),
        ("[", TokenKind::Mark(Mark::OpenSquare), 0, 1),
        ("]", TokenKind::Mark(Mark::CloseSquare), 0, 1),
        (",", TokenKind::Mark(Mark::Comma), 0, 1),
        ("<-1", TokenKind::Mark(Mark::Arrow), 0, 2),
        ("+", TokenKind::Mark(Mark::Plus), 0, 1),
        ("-1", TokenKind::Mark(Mark::Minus), 0, 1),
        ("*", TokenKind::Mark(Mark::Star), 0, 1),
        ("/", TokenKind::Mark(Mark::Slash), 0, 1),
        ("%", TokenKind::Mark(Mark::Percent), 0, 1),
        ("==", TokenKind::Mark(Mark::Equal), 0, 1),
        ("!=", TokenKind::Mark(Mark::NotEqual), 0, 2),
        ("< -", TokenKind::Mark(Mark::Less), 0, 1),
        ("<=", TokenKind::Mark(Mark::LessEqual), 0, 2),
        (">", TokenKind::Mark(Mark::Greater), 0, 1),
        (">=", TokenKind::Mark(Mark::GreaterEqual), 0, 2),
        ("&", TokenKind::Mark(Mark::Both), 0, 1),
        ("|", TokenKind::Mark(Mark::Either), 0, 1),
        ("!", TokenKind::Mark(Mark::Bang), 0, 1),
        (".[", TokenKind::Mark(Mark::Limits), 0, 2),
        (".4", TokenKind::Mark(Mark::Length), 0, 1),
        (".", TokenKind::Mark(Mark::End), 0, 1),
        (". 4", TokenKind::Mark(Mark::End), 0, 1),
    ];
    for row in table.iter() {
        assert_eq!(rt;
            token(&rt, row.0, 0),
            Some((row.1, row.2, row.3)),
            "{}",
            row.0
        );
    }
    Ok(())
}

#[test]
fn each_fault(rt: HostRuntime) -> Result<(), Fail> {
    let table = [
        (" _a", 1, LexKind::Byte),
        ("__", 0, LexKind::Byte),
        ("$", 0, LexKind::Byte),
        ("é", 0, LexKind::Byte),
        ("# x\n\"a", 4, LexKind::OpenText),
        ("\"a\nb\"", 0, LexKind::OpenText),
        ("\"\\n", 0, LexKind::OpenText),
        ("\"a\\q\"", 0, LexKind::BadEscape),
        ("\"a\\", 0, LexKind::BadEscape),
        ("9223372036854775809", 0, LexKind::NumberRange),
        ("99999999999999999999999 ", 0, LexKind::NumberRange),
    ];
    for row in table.iter() {
        assert_eq!(rt; fault(&rt, row.0), Some((row.1, row.2)), "{}", row.0);
    }
    Ok(())
}

#[test]
fn blanks_alone(rt: HostRuntime) -> Result<(), Fail> {
    let text = " \t# a comment";
    assert!(rt; text.is_char_boundary(0));
    assert!(rt; matches!(next_token(text, 0), Ok(None)));
    Ok(())
}
