// Lines to what they come to.
ghost use Rattle.std.specs.Prelude.{◌≡◌, ◌<◌, ◌≤◌, ◌+◌, ℕ, List, length, true, false, is_some, IfOk, OnOk, OnErr, IsErrOf};
ghost use Rattle.flow_ports.specs.Flow.{Rose, GivesPart};
ghost use Rattle.event_model.specs.Lines.{without_cr};
ghost use Rattle.event_model.specs.Presence.{History, all_inputs, extended, settles, judge, verdict, after_verdict};
ghost use Rattle.event_model.specs.declared.inputs.Judgement.TheVariants.{Fine};
ghost use Rattle.event_model.specs.declared.inputs.TheConstants.{MOST_LINE_BYTES};
ghost use Rattle.line_reader.specs.Cutting.{IsLine};
ghost use Rattle.pattern_meaning.specs.Replies.{change_by, says_nothing, reply, reply_to_input};
ghost use Rattle.event_reader.specs.Machine.{heard};
ghost use Rattle.etalis_core.specs.StandsFor.{StandsFor, WorksFrom, CanBegin, rules_of, late_of, last_change, visits_of, visits_by, is_working, is_spent};
ghost use Rattle.etalis_core.specs.declared.present.TheConstants.{MOST_COPIES};
ghost use Rattle.revision.specs.Holding.{counted as capped};
ghost use Rattle.etalis_cli.specs.Output.{visits_told, visits_in};
ghost use Rattle.etalis_cli.specs.Replying.{refusal_of, reply_by, HasVisits, visits_made, visits_for};
ghost use Rattle.etalis_cli.specs.Feeds.{Sends, SendsBefore};
ghost use Rattle.etalis_cli.specs.StandsFor.{KeepsAll};

use crate::keeping::keep;
use crate::sending::{FeedFault, send_all};
use etalis_core::{Engine, Roll};
use event_changes::Progress;
use event_model::{Input, Judgement, MOST_LINE_BYTES, Refusal};
use event_reader::{LineFault, parse_line};
use flow_ports::Sink;
use line_reader::Line;
use std::alloc::{AllocError, Global};

/// What a line has come to.
#[derive(Clone, Copy, Debug, PartialEq, Eq)]
pub enum Answer {
    /// There is nothing to tell.
    Silent,
    Refused(Refusal),
    /// What the engine tells has changed, which may be nothing.
    Changed,
}

/// How many visits a turn of the engine may make.
pub const UNITS: u32 = 1024;

// Why an input that is judged so is refused.
fn refusal_of(judgement: Judgement) -> Option<Refusal>
    ensures { result ≡ refusal_of judgement }
{
    match judgement {
        Judgement::Fine => None,
        Judgement::Batch => Some(Refusal::Batch),
        Judgement::Below { bound } => Some(Refusal::Below(bound)),
        Judgement::Absent => Some(Refusal::Absent),
    }
}

// Whether an input has no reply even where it settles something.
fn says_nothing(input: &Input) -> bool
    ensures { result ≡ says_nothing input.now }
{
    match input {
        Input::Nothing => true,
        Input::Add(_) | Input::Take(_) | Input::Advance(_) | Input::Begin | Input::Commit => false,
    }
}

// Has the engine work until the input that was begun is done.
fn go_on(engine: &mut Engine) -> Result<(), AllocError>
    requires { is_working engine.old ≡ true }
    ensures stands { (h : History) (input : Input) (left : ℕ) → WorksFrom engine.old h input left
        → OnOk result (StandsFor engine.new (extended h input)) }
    ensures change { (h : History) (input : Input) (left : ℕ) → WorksFrom engine.old h input left
        → OnOk result (last_change engine.new ≡ change_by (rules_of engine.old) h input) }
    ensures visits { (h : History) (input : Input) (left : ℕ) → WorksFrom engine.old h input left
        → OnOk result (visits_of engine.new ≡ capped (visits_by (rules_of engine.old) (late_of engine.old) h input)) }
    ensures resting { OnOk result (is_working engine.new ≡ false) }
    ensures unspent { OnOk result (is_spent engine.new ≡ false) }
    ensures rules { OnOk result (rules_of engine.new ≡ rules_of engine.old) }
    ensures late { OnOk result (late_of engine.new ≡ late_of engine.old) }
{
    loop {
        match engine.turn(UNITS) {
            Ok(Progress::More) => {}
            Ok(Progress::Done) => return Ok(()),
            Err(_) => return Err(AllocError),
        }
    }
}

// The same. Where one turn isn't enough, what was gathered goes out behind it.
fn finish<O: Sink>(engine: &mut Engine, text: &mut Vec<u8>, out: &mut O) -> Result<(), FeedFault>
    requires { is_working engine.old ≡ true }
    ensures stands { (h : History) (input : Input) (left : ℕ) → WorksFrom engine.old h input left
        → OnOk result (StandsFor engine.new (extended h input)) }
    ensures change { (h : History) (input : Input) (left : ℕ) → WorksFrom engine.old h input left
        → OnOk result (last_change engine.new ≡ change_by (rules_of engine.old) h input) }
    ensures visits { (h : History) (input : Input) (left : ℕ) → WorksFrom engine.old h input left
        → OnOk result (visits_of engine.new ≡ capped (visits_by (rules_of engine.old) (late_of engine.old) h input)) }
    ensures resting { OnOk result (is_working engine.new ≡ false) }
    ensures unspent { OnOk result (is_spent engine.new ≡ false) }
    ensures rules { OnOk result (rules_of engine.new ≡ rules_of engine.old) }
    ensures late { OnOk result (late_of engine.new ≡ late_of engine.old) }
    ensures early { (h : History) (input : Input) (left : ℕ) → WorksFrom engine.old h input left
        → OnOk result (SendsBefore left (O.got out.old) (O.got out.new) text.old.items text.new.items) }
    // Where the output fails, the engine has made one turn.
    ensures first { (h : History) (input : Input) (left : ℕ) → WorksFrom engine.old h input left
        → IsErrOf result FeedFault.Write → (now : ℕ) × WorksFrom engine.new h input now × (now + UNITS ≡ left) }
    ensures sends { OnOk result (Sends (O.got out.old) (O.got out.new) text.old.items text.new.items) }
    ensures err { OnErr result (GivesPart (O.got out.old) (O.got out.new) text.old.items) }
    ensures write { IsErrOf result FeedFault.Write → Rose (O.faults out.old) (O.faults out.new) }
    ensures memory { IsErrOf result FeedFault.Memory → O.faults out.new ≡ O.faults out.old }
    ensures count { OnOk result (O.faults out.new ≡ O.faults out.old) }
{
    match engine.turn(UNITS) {
        Ok(Progress::Done) => Ok(()),
        Ok(Progress::More) => {
            send_all(text, out)?;
            go_on(engine)?;
            Ok(())
        }
        Err(_) => Err(FeedFault::Memory),
    }
}

// Has the engine accept an input that is fine, and answers whether that settled something. The engine works only where it did.
fn accept<O: Sink>(
    engine: &mut Engine,
    input: Input,
    text: &mut Vec<u8>,
    out: &mut O,
) -> Result<bool, FeedFault>
    requires { (h : History) × CanBegin engine.old h input }
    ensures settled { (h : History) → StandsFor engine.old h → IfOk result (λ settled. settled ≡ settles h input) }
    ensures stands { (h : History) → StandsFor engine.old h → OnOk result (StandsFor engine.new (extended h input)) }
    ensures change { (h : History) → StandsFor engine.old h → settles h input ≡ true
        → OnOk result (last_change engine.new ≡ change_by (rules_of engine.old) h input) }
    ensures visits { (h : History) → StandsFor engine.old h → settles h input ≡ true
        → OnOk result (visits_of engine.new ≡ capped (visits_by (rules_of engine.old) (late_of engine.old) h input)) }
    ensures resting { OnOk result (is_working engine.new ≡ false) }
    ensures unspent { OnOk result (is_spent engine.new ≡ false) }
    ensures rules { OnOk result (rules_of engine.new ≡ rules_of engine.old) }
    ensures late { OnOk result (late_of engine.new ≡ late_of engine.old) }
    ensures early { (h : History) → StandsFor engine.old h
        → OnOk result (SendsBefore (visits_made (rules_of engine.old) (late_of engine.old) h input)
        (O.got out.old) (O.got out.new) text.old.items text.new.items) }
    ensures sends { OnOk result (Sends (O.got out.old) (O.got out.new) text.old.items text.new.items) }
    ensures err { OnErr result (GivesPart (O.got out.old) (O.got out.new) text.old.items) }
    ensures write { IsErrOf result FeedFault.Write → Rose (O.faults out.old) (O.faults out.new) }
    ensures memory { IsErrOf result FeedFault.Memory → O.faults out.new ≡ O.faults out.old }
    ensures count { OnOk result (O.faults out.new ≡ O.faults out.old) }
{
    match engine.begin(input) {
        Ok(()) => {}
        Err(_) => return Err(FeedFault::Memory),
    }
    if !engine.working() {
        return Ok(false);
    }
    finish(engine, text, out)?;
    Ok(true)
}

// Accepts an input that is fine.
fn take_input<O: Sink>(
    engine: &mut Engine,
    roll: &mut Option<Roll>,
    input: Input,
    text: &mut Vec<u8>,
    out: &mut O,
) -> Result<Answer, FeedFault>
    requires { (h : History) × CanBegin engine.old h input × KeepsAll roll.old (late_of engine.old) h }
    ensures stands { (h : History) → StandsFor engine.old h → OnOk result (StandsFor engine.new (extended h input)) }
    ensures all { (h : History) → StandsFor engine.old h → judge (late_of engine.old) h input ≡ Fine
        → KeepsAll roll.old (late_of engine.old) h → OnOk result (KeepsAll roll.new (late_of engine.old) (extended h input)) }
    ensures there { is_some roll.new ≡ is_some roll.old }
    ensures reply { (h : History) → StandsFor engine.old h → IfOk result (λ answer. (n : ℕ)
        → reply_by n answer (last_change engine.new) ≡ reply_to_input (rules_of engine.old) h n input) }
    ensures visits { (h : History) → StandsFor engine.old h → IfOk result (λ answer.
        HasVisits answer (visits_of engine.new) (visits_told (rules_of engine.old) (late_of engine.old) h input)) }
    ensures resting { OnOk result (is_working engine.new ≡ false) }
    ensures unspent { OnOk result (is_spent engine.new ≡ false) }
    ensures rules { OnOk result (rules_of engine.new ≡ rules_of engine.old) }
    ensures late { OnOk result (late_of engine.new ≡ late_of engine.old) }
    ensures early { (h : History) → StandsFor engine.old h
        → OnOk result (SendsBefore (visits_made (rules_of engine.old) (late_of engine.old) h input)
        (O.got out.old) (O.got out.new) text.old.items text.new.items) }
    ensures sends { OnOk result (Sends (O.got out.old) (O.got out.new) text.old.items text.new.items) }
    ensures err { OnErr result (GivesPart (O.got out.old) (O.got out.new) text.old.items) }
    ensures write { IsErrOf result FeedFault.Write → Rose (O.faults out.old) (O.faults out.new) }
    ensures memory { IsErrOf result FeedFault.Memory → O.faults out.new ≡ O.faults out.old }
    ensures count { OnOk result (O.faults out.new ≡ O.faults out.old) }
{
    let silent = says_nothing(&input);
    keep(roll, engine.late(), &input)?;
    let settled = accept(engine, input, text, out)?;
    if !settled || silent {
        return Ok(Answer::Silent);
    }
    Ok(Answer::Changed)
}

// Judges a line that isn't too long, and accepts it where it is fine.
fn take_short<O: Sink>(
    alloc: Global,
    engine: &mut Engine,
    roll: &mut Option<Roll>,
    line: &[u8],
    text: &mut Vec<u8>,
    out: &mut O,
) -> Result<Answer, FeedFault>
    requires stands { (h : History) × StandsFor engine.old h × KeepsAll roll.old (late_of engine.old) h
        × (length (all_inputs h) < MOST_COPIES) }
    requires short { length line.now ≤ MOST_LINE_BYTES }
    ensures stands { (h : History) → StandsFor engine.old h → let judged = verdict (late_of engine.old) h (heard line.now) in
        OnOk result (StandsFor engine.new (after_verdict h judged)) }
    ensures all { (h : History) → StandsFor engine.old h → KeepsAll roll.old (late_of engine.old) h
        → let judged = verdict (late_of engine.old) h (heard line.now) in
        OnOk result (KeepsAll roll.new (late_of engine.old) (after_verdict h judged)) }
    ensures there { is_some roll.new ≡ is_some roll.old }
    ensures reply { (h : History) → StandsFor engine.old h → let judged = verdict (late_of engine.old) h (heard line.now) in
        IfOk result (λ answer. (n : ℕ)
        → reply_by n answer (last_change engine.new) ≡ reply (rules_of engine.old) h n judged) }
    ensures visits { (h : History) → StandsFor engine.old h → let judged = verdict (late_of engine.old) h (heard line.now) in
        IfOk result (λ answer. HasVisits answer (visits_of engine.new) (visits_in (rules_of engine.old) (late_of engine.old) h judged)) }
    ensures resting { OnOk result (is_working engine.new ≡ false) }
    ensures unspent { OnOk result (is_spent engine.new ≡ false) }
    ensures rules { OnOk result (rules_of engine.new ≡ rules_of engine.old) }
    ensures late { OnOk result (late_of engine.new ≡ late_of engine.old) }
    ensures early { (h : History) → StandsFor engine.old h → let judged = verdict (late_of engine.old) h (heard line.now) in
        OnOk result (SendsBefore (visits_for (rules_of engine.old) (late_of engine.old) h judged)
        (O.got out.old) (O.got out.new) text.old.items text.new.items) }
    ensures sends { OnOk result (Sends (O.got out.old) (O.got out.new) text.old.items text.new.items) }
    ensures err { OnErr result (GivesPart (O.got out.old) (O.got out.new) text.old.items) }
    ensures write { IsErrOf result FeedFault.Write → Rose (O.faults out.old) (O.faults out.new) }
    ensures memory { IsErrOf result FeedFault.Memory → O.faults out.new ≡ O.faults out.old }
    ensures count { OnOk result (O.faults out.new ≡ O.faults out.old) }
{
    let input = match parse_line(alloc, line) {
        Ok(input) => input,
        Err(LineFault::Syntax(at)) => return Ok(Answer::Refused(Refusal::Syntax(at as u64))),
        Err(LineFault::Memory) => return Err(FeedFault::Memory),
    };
    match refusal_of(engine.judge(&input)) {
        Some(refusal) => Ok(Answer::Refused(refusal)),
        None => take_input(engine, roll, input, text, out),
    }
}

/// Judges a line, and accepts it where it is fine; a roll follows. Where the engine needs more than one turn, what was gathered goes
/// out behind the first. After an `Err` no more lines should follow.
pub fn take_line<O: Sink>(
    alloc: Global,
    engine: &mut Engine,
    roll: &mut Option<Roll>,
    line: Line<'_>,
    text: &mut Vec<u8>,
    out: &mut O,
) -> Result<Answer, FeedFault>
    requires stands { (h : History) × StandsFor engine.old h × KeepsAll roll.old (late_of engine.old) h
        × (length (all_inputs h) < MOST_COPIES) }
    requires line { (raw : List ℕ) × IsLine line raw }
    ensures stands { (h : History) (raw : List ℕ) → StandsFor engine.old h → IsLine line.entry raw
        → let judged = verdict (late_of engine.old) h (heard (without_cr raw)) in
        OnOk result (StandsFor engine.new (after_verdict h judged)) }
    ensures all { (h : History) (raw : List ℕ) → StandsFor engine.old h → KeepsAll roll.old (late_of engine.old) h
        → IsLine line.entry raw → let judged = verdict (late_of engine.old) h (heard (without_cr raw)) in
        OnOk result (KeepsAll roll.new (late_of engine.old) (after_verdict h judged)) }
    ensures there { is_some roll.new ≡ is_some roll.old }
    ensures reply { (h : History) (raw : List ℕ) → StandsFor engine.old h → IsLine line.entry raw
        → let judged = verdict (late_of engine.old) h (heard (without_cr raw)) in
        IfOk result (λ answer. (n : ℕ)
        → reply_by n answer (last_change engine.new) ≡ reply (rules_of engine.old) h n judged) }
    ensures visits { (h : History) (raw : List ℕ) → StandsFor engine.old h → IsLine line.entry raw
        → let judged = verdict (late_of engine.old) h (heard (without_cr raw)) in
        IfOk result (λ answer. HasVisits answer (visits_of engine.new) (visits_in (rules_of engine.old) (late_of engine.old) h judged)) }
    ensures resting { OnOk result (is_working engine.new ≡ false) }
    ensures unspent { OnOk result (is_spent engine.new ≡ false) }
    ensures rules { OnOk result (rules_of engine.new ≡ rules_of engine.old) }
    ensures late { OnOk result (late_of engine.new ≡ late_of engine.old) }
    ensures early { (h : History) (raw : List ℕ) → StandsFor engine.old h → IsLine line.entry raw
        → let judged = verdict (late_of engine.old) h (heard (without_cr raw)) in
        OnOk result (SendsBefore (visits_for (rules_of engine.old) (late_of engine.old) h judged)
        (O.got out.old) (O.got out.new) text.old.items text.new.items) }
    ensures sends { OnOk result (Sends (O.got out.old) (O.got out.new) text.old.items text.new.items) }
    ensures err { OnErr result (GivesPart (O.got out.old) (O.got out.new) text.old.items) }
    ensures write { IsErrOf result FeedFault.Write → Rose (O.faults out.old) (O.faults out.new) }
    ensures memory { IsErrOf result FeedFault.Memory → O.faults out.new ≡ O.faults out.old }
    ensures count { OnOk result (O.faults out.new ≡ O.faults out.old) }
{
    match line {
        Line::Bytes(bytes) => take_short(alloc, engine, roll, bytes, text, out),
        Line::Long => Ok(Answer::Refused(Refusal::Syntax(MOST_LINE_BYTES as u64))),
    }
}
