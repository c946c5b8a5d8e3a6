// What is kept from line to line.
ghost use Rattle.std.specs.Prelude.{◌≡◌, ◌<◌, ◌++◌, ℕ, List, IfOk, OnOk, OnErr, IsErrOf};

use crate::keeping::roll_for;
use crate::replying::take_line;
use crate::sending::FeedFault;
use crate::telling::{count_answer, push_answer, push_standing};
use crate::voices::{Tally, Voice};
use detect_writer::{drill_text, end_text};
use etalis_core::{Engine, Roll};
use event_model::Detection;
use flow_ports::Sink;
use line_reader::Line;
use pattern_meaning::scratch;
use std::alloc::{AllocError, Global};

/// An engine, how lines are answered, what was counted of the answers, and how many lines came. Where what stands is told at the end,
/// it keeps all events besides.
#[derive(Drop)]
pub struct Session {
    alloc: Global,
    engine: Engine,
    // For `Voice::Refusals` alone, since the engine forgets events.
    roll: Option<Roll>,
    voice: Voice,
    tally: Tally,
    count: u64,
}

impl Session {
    ghost use Rattle.flow_ports.specs.Flow.{Rose, GivesPart};
    ghost use Rattle.event_model.specs.Lines.{without_cr};
    ghost use Rattle.event_model.specs.Presence.{no_history};
    ghost use Rattle.line_reader.specs.Cutting.{IsLine};
    ghost use Rattle.etalis_core.specs.StandsFor as core;
    ghost use Rattle.etalis_core.specs.StandsFor.{rules_of, late_of};
    ghost use Rattle.etalis_core.specs.declared.present.TheConstants.{MOST_COPIES};
    ghost use Rattle.etalis_cli.specs.Output.{Talk, start, after_line, reply_to, closing};
    ghost use Rattle.etalis_cli.specs.StandsFor.{StandsFor, setting_of};
    ghost use Rattle.etalis_cli.specs.Feeds.{Sends, SendsBefore, visits_at};
    ghost use Rattle.etalis_cli.specs.declared.voices.Voice.TheVariants.{Refusals};
    ghost use Rattle.pattern_meaning.specs.Replies.{standing_after};

    /// Before the first line, over an engine to which no input came.
    pub fn new(alloc: Global, engine: Engine, voice: Voice) -> Session
        requires { core.StandsFor engine no_history }
        ensures start { StandsFor result (start record { rules = rules_of engine; late = late_of engine; voice = voice }) }
        ensures setting { setting_of result ≡ record { rules = rules_of engine; late = late_of engine; voice = voice } }
    {
        Session {
            alloc,
            engine,
            roll: roll_for(alloc, voice),
            voice,
            tally: Tally {
                told: 0,
                withdrawn: 0,
                visits: 0,
                held: 0,
            },
            count: 0,
        }
    }

    /// Accepts or refuses a line, and appends what is told of it at once to what was gathered. Where the line takes more than one
    /// turn of the engine, what was gathered before it goes out behind the first. An `Err` may have accepted the line in part, so no
    /// more lines should follow one.
    pub fn answer<O: Sink>(
        &mut self,
        line: Line<'_>,
        text: &mut Vec<u8>,
        out: &mut O,
    ) -> Result<(), FeedFault>
        requires stands { (t : Talk) × StandsFor self.old t × (t.state.count < MOST_COPIES) }
        requires line { (raw : List ℕ) × IsLine line raw }
        ensures reply { (t : Talk) (raw : List ℕ) → StandsFor self.old t → IsLine line.entry raw
            → OnOk result (Sends (O.got out.old) (O.got out.new) (text.old.items ++ reply_to t (without_cr raw)) text.new.items) }
        ensures early { (t : Talk) (raw : List ℕ) → StandsFor self.old t → IsLine line.entry raw
            → OnOk result ((kept : List ℕ) × SendsBefore (visits_at t (without_cr raw)) (O.got out.old) (O.got out.new) text.old.items kept
            × (text.new.items ≡ kept ++ reply_to t (without_cr raw))) }
        ensures after { (t : Talk) (raw : List ℕ) → StandsFor self.old t → IsLine line.entry raw
            → OnOk result (StandsFor self.new (after_line t (without_cr raw))) }
        ensures err { OnErr result (GivesPart (O.got out.old) (O.got out.new) text.old.items) }
        ensures write { IsErrOf result FeedFault.Write → Rose (O.faults out.old) (O.faults out.new) }
        ensures memory { IsErrOf result FeedFault.Memory → O.faults out.new ≡ O.faults out.old }
        ensures count { OnOk result (O.faults out.new ≡ O.faults out.old) }
    {
        let number = self.count + 1;
        let answer = take_line(
            self.alloc,
            &mut self.engine,
            &mut self.roll,
            line,
            text,
            out,
        )?;
        push_answer(&self.engine, self.voice, number, answer, text)?;
        self.tally = count_answer(&self.engine, self.voice, answer, self.tally);
        self.count = number;
        Ok(())
    }

    // What stands, found from all events.
    fn standing(&self) -> Result<Vec<Detection>, AllocError>
        requires stands { (t : Talk) × StandsFor self.now t }
        requires all { self.now.voice ≡ Refusals }
        ensures { (t : Talk) → StandsFor self.now t
            → IfOk result (λ v. v.items ≡ standing_after (rules_of self.now.engine) t.state.history) }
    {
        match &self.roll {
            Some(roll) => scratch(self.alloc, self.engine.checked(), &roll.events()?),
            None => Ok(Vec::new(self.alloc)),
        }
    }

    /// Appends what stands behind the answers to all lines.
    pub fn close(&self, out: &mut Vec<u8>) -> Result<(), AllocError>
        requires { (t : Talk) × StandsFor self.now t }
        ensures { (t : Talk) → StandsFor self.now t → OnOk result (out.new.items ≡ out.old.items ++ closing t) }
    {
        match self.voice {
            Voice::Replies | Voice::Held => end_text(self.count, self.engine.in_batch(), out),
            Voice::Refusals => {
                push_standing(&self.standing()?, out)?;
                end_text(self.count, self.engine.in_batch(), out)
            }
            Voice::Counts => drill_text(
                self.tally.told,
                self.tally.withdrawn,
                self.tally.visits,
                self.tally.held,
                out,
            ),
        }
    }
}
