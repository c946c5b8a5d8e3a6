// The plain evaluator.
use crate::fixtures::{checked, event};
use event_model::atom_text;
use pattern_meaning::scratch;
use std::test::Fail;

// What stands over an `a(7)` from 1 to 2 and a `b(7)` at 3, by rules: the texts of the atoms, and the sum of the spans' edges.
fn standing(rt: &(impl AllocGlobal), text: &str) -> Result<(String, u64), Fail> {
    let alloc = rt.alloc();
    let rules = checked(alloc, text)?;
    let mut events = Vec::new(alloc);
    events.push(event(alloc, "a", &[7], 1, 2)?)?;
    events.push(event(alloc, "b", &[7], 3, 3)?)?;
    let mut atoms = Vec::new(alloc);
    let mut edges = 0u64;
    for detection in scratch(alloc, &rules, &events)?.iter() {
        atom_text(&detection.atom, &mut atoms)?;
        edges = edges.saturating_add(detection.span.start() + detection.span.end());
    }
    Ok((String::from_utf8(atoms)?, edges))
}

#[test]
fn rules_stand_on_events_and_on_rules(rt: HostRuntime) -> Result<(), Fail> {
    let rows = [
        ("ab(X) <- a(X) SEQ b(X).", "ab(7)", 4),
        ("c <- a(_) SEQ b(_). d <- c AND b(X).", "cd", 8),
        ("show n/0. n <- a(X) WHERE X > 7.", "", 0),
    ];
    for row in rows.iter() {
        let (atoms, edges) = standing(&rt, row.0)?;
        assert_eq!(rt; atoms.as_str(), row.1);
        assert_eq!(rt; edges, row.2);
    }
    Ok(())
}
