// Sound files, and files that are refused.
use crate::fixtures::checked;
use event_model::{Name, NameArity};
use rule_check::check;
use rule_parser::parse;
use std::alloc::Global;
use std::test::Fail;

// The rank of a name without arguments in the rules of a text.
fn rank(alloc: Global, text: &str, name: &str) -> Result<u32, Fail> {
    let name = NameArity {
        name: Name::new(alloc, name)?,
        arity: 0,
    };
    Ok(checked(alloc, text)?.rank(&name))
}

// What is told of rules that are refused.
fn fault(alloc: Global, text: &str) -> Result<String, Fail> {
    if text.len() > 1000 {
        return Err(Fail::new("a long text"));
    }
    match check(alloc, parse(alloc, text)?) {
        Ok(_) => Err(Fail::new("no fault")),
        Err(fault) => Ok(format!(in alloc; "{fault}")?),
    }
}

#[test]
fn rules_are_sound_or_have_a_first_fault(rt: HostRuntime) -> Result<(), Fail> {
    let alloc = rt.alloc();
    let sound = "show b/0. b <- e. a <- b.";
    for (name, wanted) in [("a", 2), ("b", 1), ("e", 0)] {
        assert_eq!(rt; rank(alloc, sound, name)?, wanted);
    }
    let rules = checked(alloc, sound)?;
    assert_eq!(rt;
        (rules.rules().statements.len(), rules.shown().len()),
        (3, 1)
    );
    let table = [
        ("h(Y) <- a(X).", "rule 1: head Y"),
        ("a <- b. b <- a.", "rule 1: cycle"),
    ];
    for (text, wanted) in table {
        assert_eq!(rt; fault(alloc, text)?.as_str(), wanted);
    }
    Ok(())
}
