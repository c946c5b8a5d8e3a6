// What lines have come to, as text and as numbers.
ghost use Rattle.std.specs.Prelude.{◌≡◌, ◌++◌, ◌+◌, ◌<◌, ◌≤◌, ◌^◌, ℕ, false, OnOk};
ghost use Rattle.event_model.specs.Bytes.{plus};
ghost use Rattle.event_model.specs.Presence.{History};
ghost use Rattle.pattern_meaning.specs.Replies.{both_texts, change_texts, reply_text};
ghost use Rattle.etalis_core.specs.StandsFor.{StandsFor, is_working, is_spent, rules_of, late_of};
ghost use Rattle.etalis_core.specs.StandsFor.{last_change, visits_of, rows_kept, events_kept};
ghost use Rattle.etalis_cli.specs.Output.{held_in, voiced, counted};
ghost use Rattle.etalis_cli.specs.Replying.{reply_by, HasVisits};

use crate::replying::Answer;
use crate::voices::{Tally, Voice};
use detect_writer::{change_text, held_text, ok_text, refusal_text};
use etalis_core::Engine;
use event_changes::Sign;
use event_model::Detection;
use std::alloc::AllocError;

// The lines of what changed last.
fn push_changes(engine: &Engine, out: &mut Vec<u8>) -> Result<(), AllocError>
    requires resting { is_working engine.now ≡ false }
    requires unspent { is_spent engine.now ≡ false }
    ensures { OnOk result (out.new.items ≡ out.old.items ++ both_texts (last_change engine.now)) }
{
    for changed in engine.changes() {
        change_text(changed.sign, changed.detection, out)?;
    }
    Ok(())
}

// Appends the whole reply.
fn push_reply(
    engine: &Engine,
    number: u64,
    answer: Answer,
    out: &mut Vec<u8>,
) -> Result<(), AllocError>
    requires resting { is_working engine.now ≡ false }
    requires unspent { is_spent engine.now ≡ false }
    ensures { OnOk result (out.new.items ≡ out.old.items ++ reply_text (reply_by number answer (last_change engine.now))) }
{
    match answer {
        Answer::Silent => Ok(()),
        Answer::Refused(refusal) => refusal_text(number, refusal, out),
        Answer::Changed => {
            push_changes(engine, out)?;
            ok_text(number, out)
        }
    }
}

// Appends how many rows and events are held, where the reply says that a line is accepted.
fn push_held(engine: &Engine, answer: Answer, out: &mut Vec<u8>) -> Result<(), AllocError>
    requires resting { is_working engine.now ≡ false }
    requires unspent { is_spent engine.now ≡ false }
    ensures { (h : History) (n : ℕ) → StandsFor engine.now h → OnOk result (out.new.items ≡ out.old.items
        ++ held_in (reply_by n answer (last_change engine.now))
        (rows_kept (rules_of engine.now) (late_of engine.now) h) (events_kept (late_of engine.now) h)) }
{
    match answer {
        Answer::Silent | Answer::Refused(_) => Ok(()),
        Answer::Changed => {
            let held = engine.held();
            held_text(held.rows as u64, held.events as u64, out)
        }
    }
}

/// Appends what is told at once of line N, by the voice.
pub fn push_answer(
    engine: &Engine,
    voice: Voice,
    number: u64,
    answer: Answer,
    out: &mut Vec<u8>,
) -> Result<(), AllocError>
    requires resting { is_working engine.now ≡ false }
    requires unspent { is_spent engine.now ≡ false }
    ensures { (h : History) → StandsFor engine.now h → OnOk result (out.new.items ≡ out.old.items
        ++ voiced voice (reply_by number answer (last_change engine.now))
        (rows_kept (rules_of engine.now) (late_of engine.now) h) (events_kept (late_of engine.now) h)) }
{
    match voice {
        Voice::Replies => push_reply(engine, number, answer, out),
        Voice::Held => {
            push_reply(engine, number, answer, out)?;
            push_held(engine, answer, out)
        }
        Voice::Refusals => match answer {
            Answer::Refused(refusal) => refusal_text(number, refusal, out),
            Answer::Silent | Answer::Changed => Ok(()),
        },
        Voice::Counts => Ok(()),
    }
}

/// The tally with what a line has come to, where the voice counts that.
pub fn count_answer(engine: &Engine, voice: Voice, answer: Answer, tally: Tally) -> Tally
    requires resting { is_working engine.now ≡ false }
    requires unspent { is_spent engine.now ≡ false }
    requires few_told { tally.told < 2 ^ 127 }
    requires few_withdrawn { tally.withdrawn < 2 ^ 127 }
    ensures counts { (h : History) (n visits : ℕ) → StandsFor engine.now h → HasVisits answer (visits_of engine.now) visits
        → result ≡ counted voice tally (reply_by n answer (last_change engine.now)) visits
        (rows_kept (rules_of engine.now) (late_of engine.now) h) }
    ensures more_told { result.told ≤ tally.told + 2 ^ 64 }
    ensures more_withdrawn { result.withdrawn ≤ tally.withdrawn + 2 ^ 64 }
{
    match voice {
        Voice::Replies | Voice::Held | Voice::Refusals => tally,
        Voice::Counts => match answer {
            Answer::Silent | Answer::Refused(_) => tally,
            Answer::Changed => Tally {
                told: tally.told + engine.come().len() as u128,
                withdrawn: tally.withdrawn + engine.gone().len() as u128,
                visits: tally.visits.saturating_add(engine.visits()),
                held: tally.held.max(engine.held().rows as u64),
            },
        },
    }
}

/// Appends the lines of what stands.
pub fn push_standing(detections: &[Detection], out: &mut Vec<u8>) -> Result<(), AllocError>
    ensures { OnOk result (out.new.items ≡ out.old.items ++ change_texts plus detections.now) }
{
    for detection in detections {
        change_text(Sign::Plus, detection, out)?;
    }
    Ok(())
}
