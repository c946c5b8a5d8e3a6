// Plans of binary steps, and how long their rows count.
use crate::fixtures::checked;
use binariser::{MOST_STEPS, PlanFault, binarise};
use goal_purge::lengths;
use row_changes::Reach;
use rule_ast::Step;
use std::alloc::{AllocError, Global};
use std::test::Fail;

// A text with a part so many times.
fn repeated(
    alloc: Global,
    front: &str,
    part: &str,
    count: usize,
    back: &str,
) -> Result<String, AllocError> {
    let mut text = String::from_str(alloc, front)?;
    for _ in 0..count {
        text.push_str(part)?;
    }
    text.push_str(back)?;
    Ok(text)
}

// Rules of 128 atoms, 255 of them, and one rule of so many more than one.
fn great(alloc: Global, more: usize) -> Result<String, AllocError> {
    let most = repeated(alloc, "a<-b", " AND b", 127, ".")?;
    let last = repeated(alloc, "a<-b", " AND b", more, ".")?;
    repeated(alloc, "", &most, 255, &last)
}

// How many steps a plan has, and how many of them are of a NOT; `None` where there are too many.
fn steps(alloc: Global, text: &str) -> Result<Option<(usize, usize)>, Fail> {
    match binarise(alloc, &checked(alloc, text)?) {
        Err(PlanFault::TooMany) => Ok(None),
        Err(PlanFault::Memory) => Err(Fail::new("no memory")),
        Ok(plan) => {
            let mut minuses: usize = 0;
            for step in &plan.steps {
                if matches!(step, Step::Minus { .. }) {
                    minuses = minuses.saturating_add(1);
                }
            }
            Ok(Some((plan.steps.len(), minuses)))
        }
    }
}

#[test]
fn rules_become_steps(rt: HostRuntime) -> Result<(), Fail> {
    let alloc = rt.alloc();
    assert_eq!(rt; steps(alloc, "ab(X) <- a(X) SEQ b(X).")?, Some((7, 0)));
    assert_eq!(rt; steps(alloc, "n <- NOT(c).[a,b].")?, Some((10, 1)));
    assert_eq!(rt; steps(alloc, &great(alloc, 126)?)?, Some((MOST_STEPS, 0)));
    assert_eq!(rt; steps(alloc, &great(alloc, 127)?)?, None);
    Ok(())
}

// The cap and the reach of the first atom in the body of these rules.
fn first_lengths(alloc: Global, text: &str) -> Result<(Option<u64>, Reach), Fail> {
    let rules = checked(alloc, text)?;
    let plan = binarise(alloc, &rules)?;
    let caps = lengths(alloc, &rules, &plan)?;
    for (step, (cap, reach)) in plan
        .steps
        .iter()
        .zip(caps.cap.iter().zip(caps.reach.iter()))
    {
        if matches!(step, Step::Leaf { .. }) {
            return Ok((*cap, *reach));
        }
    }
    Err(Fail::new("no atom"))
}

#[test]
fn rows_count_as_long_as_their_rules_say(rt: HostRuntime) -> Result<(), Fail> {
    let alloc = rt.alloc();
    assert_eq!(rt;
        first_lengths(alloc, "w <- (a SEQ b) WITHIN 4.")?,
        (Some(4), Reach::Limit(4))
    );
    assert_eq!(rt; first_lengths(alloc, "w <- a SEQ b.")?, (None, Reach::Free));
    Ok(())
}
