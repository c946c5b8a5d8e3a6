// How an engine judges inputs, its turns, what it tells, and how much it keeps after each input.
ghost use Rattle.std.specs.Prelude.{◌≡◌, ℕ, ◌<◌, length, IfOk, OnOk};
ghost use Rattle.event_model.specs.Presence.{History, all_inputs, extended, no_history};
ghost use Rattle.event_model.specs.declared.inputs.Input.{Input};
ghost use Rattle.etalis_core.specs.StandsFor.{StandsFor, WorksFrom};
ghost use Rattle.etalis_core.specs.declared.present.TheConstants.{MOST_COPIES};

use crate::fixtures::{checked, event};
use detect_writer::change_text;
use etalis_core::{Engine, Held};
use event_changes::Progress;
use event_model::{Event, Input, Judgement};
use std::alloc::Global;
use std::test::Fail;

// Begins the work on an event that is added.
fn begin_adding(engine: &mut Engine, event: Event) -> Result<(), Fail>
    requires { (h : History) × StandsFor engine.old h × (length (all_inputs h) < MOST_COPIES) }
    ensures { (h : History) → StandsFor engine.old h → OnOk result ((left : ℕ) × WorksFrom engine.new h (Input.Add event) left) }
{
    let adding = Input::Add(event);
    match engine.judge(&adding) {
        Judgement::Fine => {}
        _ => return Err(Fail::new("an event that is refused")),
    }
    engine.begin(adding)?;
    if !engine.working() {
        return Err(Fail::new("an event that settles nothing"));
    }
    Ok(())
}

// Adds an event whose work takes no more visits than this.
fn add(engine: &mut Engine, event: Event, visits: u32) -> Result<(), Fail>
    requires { (h : History) × StandsFor engine.old h × (length (all_inputs h) < MOST_COPIES) }
    ensures { (h : History) → StandsFor engine.old h → OnOk result (StandsFor engine.new (extended h (Input.Add event))) }
{
    begin_adding(engine, event)?;
    match engine.turn(visits)? {
        Progress::Done => Ok(()),
        Progress::More => Err(Fail::new("work is left")),
    }
}

// Makes a turn of one unit where there is work.
fn turn(engine: &mut Engine) -> Result<Progress, Fail> {
    if !engine.working() {
        return Err(Fail::new("no work"));
    }
    Ok(engine.turn(1)?)
}

// How much an engine keeps between its inputs.
fn held(engine: &Engine) -> Result<Held, Fail> {
    if engine.spent() {
        return Err(Fail::new("no memory was left"));
    }
    if engine.working() {
        return Err(Fail::new("work is left"));
    }
    Ok(engine.held())
}

// The lines of what an engine tells between its inputs.
fn told(alloc: Global, engine: &Engine) -> Result<Vec<u8>, Fail> {
    if engine.spent() {
        return Err(Fail::new("no memory was left"));
    }
    if engine.working() {
        return Err(Fail::new("work is left"));
    }
    let mut out = Vec::new(alloc);
    for changed in engine.changes() {
        change_text(changed.sign, changed.detection, &mut out)?;
    }
    Ok(out)
}

// An engine over rules, to which an event is added in one visit.
fn started(alloc: Global, text: &str, event: Event) -> Result<Engine, Fail>
    ensures { IfOk result (λ engine. StandsFor engine (extended no_history (Input.Add event))) }
{
    let mut engine = Engine::new(alloc, checked(alloc, text)?, None)?;
    add(&mut engine, event, 1)?;
    Ok(engine)
}

// An engine that took two `a`, and has begun a `b`. Appends how much it kept after each `a`.
fn begun(alloc: Global, kept: &mut Vec<Held>) -> Result<Engine, Fail> {
    let first = event(alloc, "a", &[7], 1, 1)?;
    let mut engine = started(alloc, "ab(X) <- a(X) SEQ b(X).", first)?;
    kept.push(held(&engine)?)?;
    add(&mut engine, event(alloc, "a", &[7], 2, 2)?, 1)?;
    kept.push(held(&engine)?)?;
    begin_adding(&mut engine, event(alloc, "b", &[7], 3, 3)?)?;
    Ok(engine)
}

#[test]
fn inputs_are_judged(rt: HostRuntime) -> Result<(), Fail> {
    let alloc = rt.alloc();
    let engine = Engine::new(alloc, checked(alloc, "ab(X) <- a(X) SEQ b(X).")?, Some(5))?;
    let taking = Input::Take(event(alloc, "a", &[7], 1, 9)?);
    assert_eq!(rt; engine.judge(&taking), Judgement::Absent);
    assert_eq!(rt; engine.judge(&Input::Commit), Judgement::Batch);
    assert_eq!(rt; engine.judge(&Input::Begin), Judgement::Fine);
    assert_eq!(rt;
        (engine.bound(), engine.late(), engine.in_batch()),
        (0, Some(5), false)
    );
    assert_eq!(rt; engine.checked().rules().statements.len(), 1);
    Ok(())
}

#[test]
fn an_engine_tells_what_its_events_give(rt: HostRuntime) -> Result<(), Fail> {
    let alloc = rt.alloc();
    let engine = started(
        alloc,
        "e(X) <- a(X) OR b(X).",
        event(alloc, "a", &[7], 2, 4)?,
    )?;
    let lines = told(alloc, &engine)?;
    assert_eq!(rt; lines.as_slice(), b"+ 2 4 e(7)\n".as_slice());
    Ok(())
}

// The changed `b` has a visit of its own and one for each `a` before it; the third turn ends the work.
#[test]
fn an_engine_works_by_turns(rt: HostRuntime) -> Result<(), Fail> {
    let mut kept = Vec::new(rt.alloc());
    let mut engine = begun(rt.alloc(), &mut kept)?;
    assert_eq!(rt; turn(&mut engine)?, Progress::More);
    assert_eq!(rt; turn(&mut engine)?, Progress::More);
    assert_eq!(rt; turn(&mut engine)?, Progress::Done);
    assert_eq!(rt; engine.visits(), 3);
    let lines = told(rt.alloc(), &engine)?;
    assert_eq!(rt; lines.as_slice(), b"+ 1 3 ab(7)\n+ 2 3 ab(7)\n".as_slice());
    kept.push(held(&engine)?)?;
    let wanted = [
        Held { rows: 2, events: 1 },
        Held { rows: 4, events: 2 },
        Held {
            rows: 12,
            events: 3,
        },
    ];
    assert_eq!(rt; kept.as_slice(), wanted.as_slice());
    Ok(())
}
