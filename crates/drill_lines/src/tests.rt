use crate::drill_lines;
use event_model::{Name, Op, Pat, PatAtom, Pats};
use rule_ast::{Pattern, Rule, RuleSet, Statement};
use std::alloc::{AllocError, Global};
use std::test::Fail;

fn atom(alloc: Global, name: &str) -> Result<PatAtom, AllocError> {
    let mut args = Vec::new(alloc);
    args.push(Pat::Any)?;
    Ok(PatAtom {
        name: Name::new(alloc, name)?,
        args: Pats::new(alloc, args)?,
    })
}

// `ab <- a(_) SEQ b(_).`
fn rules(alloc: Global) -> Result<RuleSet, AllocError> {
    let left = Box::new(alloc, Pattern::Atom(atom(alloc, "a")?))?;
    let right = Box::new(alloc, Pattern::Atom(atom(alloc, "b")?))?;
    let head = PatAtom {
        name: Name::new(alloc, "ab")?,
        args: Pats::new(alloc, Vec::new(alloc))?,
    };
    let rule = Rule {
        head,
        body: Pattern::Both(Op::Seq, left, right),
        vars: Vec::new(alloc),
    };
    let mut statements = Vec::new(alloc);
    statements.push(Statement::Rule(rule))?;
    Ok(RuleSet { statements })
}

#[test]
fn four_lines(rt: HostRuntime) -> Result<(), Fail> {
    let alloc = rt.alloc();
    let lines = drill_lines(alloc, &rules(alloc)?, 1, 4)?;
    assert_eq!(rt;
        lines.as_slice(),
        b"+ 2 b(4)\n+ 9 b(4)\n- 2 b(4)\n+ 8 a(1)\n".as_slice()
    );
    Ok(())
}
