// Texts, with what they hold or their fault.
use event_model::{Op, Slot, Slots};
use rule_ast::{Pattern, Statement, vars_of};
use rule_parser::parse;
use std::alloc::{AllocError, Global};
use std::test::Fail;

// What a text gives, as one line: the number of its statements, or its fault.
fn told(alloc: Global, text: &str) -> Result<String, AllocError> {
    match parse(alloc, text) {
        Ok(rules) => format!(in alloc; "{} statements", rules.statements.len()),
        Err(fault) => format!(in alloc; "{fault}"),
    }
}

#[test]
fn texts_and_faults(rt: HostRuntime) -> Result<(), Fail> {
    let table = [
        ("", "0 statements"),
        (
            "show p/0, q/16. p <- NOT(c(_)).[a(-1,\"x\"),(b OR c).4 WITHIN 5] WHERE !X * 2 - 1 < -3 | f(X) = g & Y != Z.",
            "2 statements",
        ),
        ("h <- a SEQ.", "syntax at 10"),
        ("a <- b", "syntax at 6"),
        ("a <- b. $", "syntax at 8"),
        ("a <- b WHERE X - .", "syntax at 17"),
        ("a(f(X)) <- b(X).", "syntax at 4"),
        ("a <- b WHERE _ = 1.", "syntax at 13"),
        ("a <- b(9223372036854775808).", "syntax at 7"),
        ("a <- b(-9223372036854775808).", "1 statements"),
        ("a <- (b).4611686018427387905.", "limit Length at 9"),
        ("a <- (b).9223372036854775808.", "syntax at 9"),
        ("show a/17.", "limit TermWidth at 7"),
        (
            "a <- b(1,2,3,4,5,6,7,8,9,10,11,12,13,14,15,16,17).",
            "limit TermWidth at 45",
        ),
    ];
    for (text, wanted) in table {
        assert_eq!(rt; told(rt.alloc(), text)?.as_str(), wanted, "{text}");
    }
    Ok(())
}

// A rule with a variable in each of so many atoms.
fn with_variables(alloc: Global, count: usize) -> Result<String, AllocError> {
    let mut text = String::from_str(alloc, "h <- a")?;
    for i in 0..count {
        text.push_str(&format!(in alloc; " AND a(V{i})")?)?;
    }
    text.push_str(".")?;
    Ok(text)
}

// A text with a part so many times.
fn repeated(
    alloc: Global,
    front: &str,
    part: &str,
    count: usize,
    back: &str,
) -> Result<String, AllocError> {
    let mut text = String::from_str(alloc, front)?;
    for _ in 0..count {
        text.push_str(part)?;
    }
    text.push_str(back)?;
    Ok(text)
}

#[test]
fn each_limit_is_passed_at_its_place(rt: HostRuntime) -> Result<(), Fail> {
    let table = [
        ("", "a<-b.", 1024, "", "1024 statements"),
        ("", "a<-b.", 1025, "", "limit Statements at 5120"),
        ("h <- a", " SEQ a", 127, ".", "1 statements"),
        ("h <- a", " SEQ a", 128, ".", "limit Parts at 773"),
        ("h <- ", "(", 33, "a.", "limit Depth at 37"),
        ("h <- a(", "f(", 16, "x.", "limit TermDepth at 38"),
    ];
    for (front, part, count, back, wanted) in table {
        let text = repeated(rt.alloc(), front, part, count, back)?;
        assert_eq!(rt; told(rt.alloc(), &text)?.as_str(), wanted);
    }
    for (count, wanted) in [(64, "1 statements"), (65, "limit Variables at 707")] {
        let text = with_variables(rt.alloc(), count)?;
        assert_eq!(rt; told(rt.alloc(), &text)?.as_str(), wanted);
    }
    Ok(())
}

// The variables of a negation are those of its start and end patterns.
#[test]
fn rules_have_their_variables(rt: HostRuntime) -> Result<(), Fail> {
    let rules = parse(
        rt.alloc(),
        "ab(Y) <- a(X) SEQ b(X,Y).\nn <- NOT(c(Z)).[a(X),b(f(Y),_)].\nshow ab/1.",
    )?;
    match rules.statements.as_slice() {
        [
            Statement::Rule(both),
            Statement::Rule(not),
            Statement::Show(_),
        ] => {
            assert_eq!(rt; both.vars.len(), 2);
            assert!(rt; matches!(&both.body, Pattern::Both(Op::Seq, _, _)));
            let named = Slots::empty().add(Slot::new(1)).add(Slot::new(2));
            assert!(rt; vars_of(&not.body) == named);
            Ok(())
        }
        _ => Err(Fail::new("other statements")),
    }
}
