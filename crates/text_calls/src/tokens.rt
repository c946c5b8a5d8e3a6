// The tokens of a text.
use event_model::Op;
use rule_ast::Cmp;
use rule_lexer::{Terminal, lex};
use std::test::Fail;

fn shown(terminal: &Terminal) -> &str {
    match terminal {
        Terminal::Name(word) => word.as_str(),
        Terminal::Var(word) => word.as_str(),
        Terminal::Text(text) => text.as_str(),
        Terminal::Number(number) if number.value() == 7 => "7",
        Terminal::Huge => "2^63",
        Terminal::Op(Op::Seq) => "SEQ",
        Terminal::Compare(Cmp::Le) => "<=",
        Terminal::Stray => "[",
        Terminal::End => ".",
        _ => "?",
    }
}

#[test]
fn tokens_of_texts(rt: HostRuntime) -> Result<(), Fail> {
    let table = ["a", "<=", "X", "SEQ", "\t\"é\\", "2^63", "[", "7", "."];
    let lexed = lex(
        rt.alloc(),
        "a <= X SEQ\"\\t\\\"é\\\\\" 9223372036854775808 [7 . $",
    )?;
    assert_eq!(rt; lexed.terminals.len(), table.len());
    for at in 0..table.len() {
        assert_eq!(rt; lexed.terminals.get(at).map(shown), Some(table[at]));
    }
    assert_eq!(rt;
        lexed.places.as_slice(),
        [0, 2, 5, 7, 10, 21, 41, 42, 44].as_slice()
    );
    assert!(rt; lexed.end == 46 && !lexed.whole);
    let blank = lex(rt.alloc(), " # a")?;
    assert!(rt; blank.whole && blank.terminals.is_empty() && blank.end == 4);
    Ok(())
}
