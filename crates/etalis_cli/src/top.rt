// The top call.
ghost use Rattle.std.specs.Prelude.{◌≡◌, ◌<◌, ◌≤◌, ◌⊎◌, ℕ, List, None, true, false, IfOk, IfSome, length};
ghost use Rattle.flow_ports.specs.Flow.{Rose, Takes, Gives, GivesPart, IsAtEnd};
ghost use Rattle.event_model.specs.Lines.{ended};
ghost use Rattle.event_model.specs.declared.events.TheConstants.{TIME_LIMIT};
ghost use Rattle.rule_ast.specs.Plain.{plain_rules};
ghost use Rattle.rule_writer.specs.Canonical.{canonical};
ghost use Rattle.event_model.specs.Presence.{no_history};
ghost use Rattle.etalis_core.specs.StandsFor.{StandsFor, rules_of, late_of};
ghost use Rattle.drill_lines.specs.DrillText.{drill_text};
ghost use Rattle.drill_lines.specs.OpenNames.{open_names};
ghost use Rattle.drill_lines.specs.declared.lines.TheConstants.{MOST_LINES};
ghost use Rattle.etalis_cli.specs.Output.{start, replies, out_text};
ghost use Rattle.etalis_cli.specs.Modes.{reads, job_reads, mode_text, OnInput};
ghost use Rattle.etalis_cli.specs.Outcome.{Served, Written, Counted};
ghost use Rattle.etalis_cli.specs.declared.voices.Voice.TheVariants.{Counts};
ghost use Rattle.etalis_cli.specs.Rules.{IsAccepted, HasNone};
ghost use Rattle.etalis_cli.specs.Words.{form};
ghost use Rattle.etalis_cli.specs.Run.{cause_of, RulesRead, RunEnds, CountsAt, NoneFell, IsNoteOf, PartFor, file_of, MayAsk, OnRules, OnTaken, WasServed, IsComplete};

use crate::accepting::{AcceptFault, MOST_FILE_BYTES, accept};
use crate::jobs::{read_job, voice_of};
use crate::notes::tell;
use crate::refusals::FileRefusal;
use crate::serving::{INPUT_LIMIT, ServeFault, serve, serve_bytes};
use crate::session::Session;
use crate::status::{Cause, Status, status_of};
use crate::voices::Voice;
use drill_lines::drill_lines;
use etalis_core::Engine;
use flow_ports::{Failed, Shelf, Sink, Source, WholeFault, read_whole, write_whole};
use job_words::{Mode, WordsFault};
use rule_writer::rules_text;
use std::alloc::Global;

// Reads the rule file, and makes an engine by it. An `Err` is the cause to end with.
fn read_rules<S: Shelf>(
    alloc: Global,
    shelf: &mut S,
    name: &str,
    late: Option<u64>,
) -> Result<Engine, Cause>
    requires serves { S.serves shelf.old name.now ≡ true }
    requires late { IfSome late (λ l. l < TIME_LIMIT) }
    ensures read { RulesRead (S.holds shelf.old name.now) (S.faults shelf.old) (S.faults shelf.new) result }
    ensures stands { IfOk result (λ engine. StandsFor engine no_history) }
    ensures late { IfOk result (λ engine. late_of engine ≡ late) }
{
    let file = match read_whole(alloc, shelf, name, MOST_FILE_BYTES) {
        Ok(file) => file,
        Err(WholeFault::Failed) => return Err(Cause::RulesUnread),
        Err(WholeFault::TooLong) => return Err(Cause::RulesRefused(FileRefusal::TooLong)),
        Err(WholeFault::Memory) => return Err(Cause::Memory),
    };
    match accept(alloc, &file, late) {
        Ok(engine) => Ok(engine),
        Err(AcceptFault::Refused(refusal)) => Err(Cause::RulesRefused(refusal)),
        Err(AcceptFault::Memory) => Err(Cause::Memory),
    }
}

// The cause that a run over the lines ends with.
fn cause_of(outcome: Result<(), ServeFault>) -> Cause
    ensures { result ≡ cause_of outcome }
{
    match outcome {
        Ok(()) => Cause::Done,
        Err(ServeFault::Read) => Cause::InputUnread,
        Err(ServeFault::Write) => Cause::WriteFault,
        Err(ServeFault::Memory) => Cause::Memory,
        Err(ServeFault::TooLong) => Cause::TooLong,
    }
}

// Serves the lines of the source.
fn serve_lines<I: Source, O: Sink>(
    alloc: Global,
    engine: Engine,
    voice: Voice,
    input: &mut I,
    out: &mut O,
) -> Result<(), ServeFault>
    requires { StandsFor engine no_history }
    ensures served { (done : List ℕ) × Served record { rules = rules_of engine; late = late_of engine; voice = voice } result
        (I.left input.old) (I.left input.new) (O.got out.old) (O.got out.new) (Rose (O.faults out.old) (O.faults out.new)) done }
    ensures counts { Counted result (I.faults input.old) (I.faults input.new) (O.faults out.old) (O.faults out.new) }
{
    let mut session = Session::new(alloc, engine, voice);
    serve(alloc, &mut session, input, out)
}

// Writes the canonical text of the rules.
fn write_rules<O: Sink>(alloc: Global, engine: &Engine, out: &mut O) -> Result<(), ServeFault>
    ensures written { Written result (O.got out.old) (O.got out.new) (canonical (rules_of engine.now)) }
    ensures counts { (n : ℕ) → Counted result n n (O.faults out.old) (O.faults out.new) }
{
    let text = rules_text(alloc, engine.checked().rules())?;
    match write_whole(out, &text) {
        Ok(()) => Ok(()),
        Err(Failed) => Err(ServeFault::Write),
    }
}

// Writes what the lines come to that the seed makes for the rules.
fn write_drill<O: Sink>(
    alloc: Global,
    engine: Engine,
    seed: u64,
    lines: u64,
    out: &mut O,
) -> Result<(), ServeFault>
    requires stands { StandsFor engine no_history }
    requires lines { lines ≤ MOST_LINES }
    ensures written { Written result (O.got out.old) (O.got out.new)
        (out_text record { rules = rules_of engine; late = late_of engine; voice = Counts }
        (drill_text (open_names (rules_of engine)) seed lines)) }
    ensures counts { (n : ℕ) → Counted result n n (O.faults out.old) (O.faults out.new) }
{
    let lines = drill_lines(alloc, engine.checked().rules(), seed, lines)?;
    let mut session = Session::new(alloc, engine, Voice::Counts);
    serve_bytes(alloc, &mut session, &lines, out)
}

// All of a run but its note.
fn work<S: Shelf, I: Source, O: Sink>(
    alloc: Global,
    words: &[String],
    shelf: &mut S,
    input: &mut I,
    out: &mut O,
) -> Cause
    requires { MayAsk (form words.now) (S.serves shelf.old) }
    ensures { RunEnds (form words.now) (S.holds shelf.old) (input.new ≡ input.old) ((input.new ≡ input.old) × (out.new ≡ out.old))
        (I.left input.old) (I.left input.new) (O.got out.old) (O.got out.new)
        record { shelf = S.faults shelf.old; source = I.faults input.old; sink = O.faults out.old }
        record { shelf = S.faults shelf.new; source = I.faults input.new; sink = O.faults out.new } result }
{
    let job = match read_job(alloc, words) {
        Ok(job) => job,
        Err(WordsFault::Usage) => return Cause::Usage,
        Err(WordsFault::Memory) => return Cause::Memory,
    };
    let engine = match read_rules(alloc, shelf, job.rules.as_str(), job.late) {
        Ok(engine) => engine,
        Err(cause) => return cause,
    };
    match job.mode {
        Mode::Check => cause_of(write_rules(alloc, &engine, out)),
        Mode::Drill => cause_of(write_drill(alloc, engine, job.seed, job.lines, out)),
        Mode::Run | Mode::Scratch | Mode::Held => {
            cause_of(serve_lines(alloc, engine, voice_of(job.mode), input, out))
        }
    }
}

/// Does the job of the words with the rule file. Mode `run` reads the lines and writes the replies; mode `held` does so too, and writes
/// behind each `ok N` how many rows and events are held. Mode `scratch` reads the lines, and writes the refusals and then what stands.
/// Mode `check` writes the canonical text of the rules, and mode `drill` how many detections are told and withdrawn over lines that a
/// seed makes, how many visits that takes and how many rows are held at most; these two don't touch the source. A note says why the
/// run ended, where it wasn't done; a failure to write the note is dropped.
pub fn run<S: Shelf, I: Source, O: Sink, N: Sink>(
    alloc: Global,
    words: &[String],
    shelf: &mut S,
    input: &mut I,
    out: &mut O,
    notes: &mut N,
) -> Status
    requires { MayAsk (form words.now) (S.serves shelf.old) }

    // What is written.
    ensures done { result ≡ Status.Done → OnRules (form words.now) (S.holds shelf.old) (λ job w.
        OnInput (reads job.mode) (I.left input.old) (λ bytes. Gives (O.got out.old) (O.got out.new) (mode_text job w bytes))) }
    ensures part { OnRules (form words.now) (S.holds shelf.old) (λ job w.
        PartFor (reads job.mode) job w (I.left input.old) (I.left input.new) (O.got out.old) (O.got out.new)) }
    ensures replied { result ≡ Status.ReadFault → OnRules (form words.now) (S.holds shelf.old) (λ job w.
        OnTaken (I.left input.old) (I.left input.new) (λ taken.
        Gives (O.got out.old) (O.got out.new) (replies (start w) (ended taken)))) }
    ensures long_replied { result ≡ Status.TooLong → Rose (O.faults out.old) (O.faults out.new)
        ⊎ OnRules (form words.now) (S.holds shelf.old) (λ job w.
        OnTaken (I.left input.old) (I.left input.new) (λ taken.
        Gives (O.got out.old) (O.got out.new) (replies (start w) (ended taken)))) }

    // What is taken of the source.
    ensures taken { (bytes : List ℕ) × Takes (I.left input.old) (I.left input.new) bytes }
    ensures read_to_end { result ≡ Status.Done → job_reads (form words.now) ≡ true → IsAtEnd (I.left input.new) }
    ensures too_long { result ≡ Status.TooLong
        → OnTaken (I.left input.old) (I.left input.new) (λ taken. INPUT_LIMIT ≤ length taken) }
    ensures no_longer { OnTaken (I.left input.old) (I.left input.new) (λ taken. INPUT_LIMIT ≤ length taken
        → (result ≡ Status.TooLong) ⊎ (result ≡ Status.Memory)) }

    // Where the source isn't touched.
    ensures source_unread { job_reads (form words.now) ≡ false → input.new ≡ input.old }

    // Where neither the source nor the output is touched.
    ensures no_form { form words.now ≡ None → (input.new ≡ input.old) × (out.new ≡ out.old) }
    ensures unaccepted { IfSome (file_of (form words.now) (S.holds shelf.old)) (λ file.
        HasNone file → (input.new ≡ input.old) × (out.new ≡ out.old)) }
    ensures untouched { (result ≡ Status.Usage) ⊎ (result ≡ Status.RulesRefused)
        → (input.new ≡ input.old) × (out.new ≡ out.old) }

    // Which status comes when.
    ensures usage { result ≡ Status.Usage → form words.now ≡ None }
    ensures out_of_form { form words.now ≡ None → (result ≡ Status.Usage) ⊎ (result ≡ Status.Memory) }
    ensures refused { result ≡ Status.RulesRefused
        → IfSome (file_of (form words.now) (S.holds shelf.old)) HasNone }
    ensures refuses { IfSome (file_of (form words.now) (S.holds shelf.old)) (λ file. HasNone file
        → (result ≡ Status.RulesRefused) ⊎ ((result ≡ Status.Memory)
        ⊎ ((result ≡ Status.ReadFault) × Rose (S.faults shelf.old) (S.faults shelf.new)))) }
    ensures accepted { WasServed result
        → IfSome (file_of (form words.now) (S.holds shelf.old)) IsAccepted }
    ensures unread { result ≡ Status.ReadFault
        → (Rose (S.faults shelf.old) (S.faults shelf.new) × ((input.new ≡ input.old) × (out.new ≡ out.old)))
        ⊎ (Rose (I.faults input.old) (I.faults input.new) × (S.faults shelf.new ≡ S.faults shelf.old)
        × IfSome (file_of (form words.now) (S.holds shelf.old)) IsAccepted) }
    ensures complete { IsComplete result (file_of (form words.now) (S.holds shelf.old)) (job_reads (form words.now)) (I.left input.old)
        (Rose (S.faults shelf.old) (S.faults shelf.new)) (Rose (I.faults input.old) (I.faults input.new))
        (Rose (O.faults out.old) (O.faults out.new)) }

    // Which counts rise.
    ensures counts { CountsAt result
        record { shelf = S.faults shelf.old; source = I.faults input.old; sink = O.faults out.old }
        record { shelf = S.faults shelf.new; source = I.faults input.new; sink = O.faults out.new } }
    ensures counts_stay { NoneFell
        record { shelf = S.faults shelf.old; source = I.faults input.old; sink = O.faults out.old }
        record { shelf = S.faults shelf.new; source = I.faults input.new; sink = O.faults out.new } }

    // The note.
    ensures note { (text : List ℕ)
        × IsNoteOf result text (file_of (form words.now) (S.holds shelf.old))
        (Rose (S.faults shelf.old) (S.faults shelf.new)) (Rose (I.faults input.old) (I.faults input.new))
        × (Gives (N.got notes.old) (N.got notes.new) text
        ⊎ (Rose (N.faults notes.old) (N.faults notes.new) × GivesPart (N.got notes.old) (N.got notes.new) text)) }
{
    let cause = work(alloc, words, shelf, input, out);
    tell(notes, &cause);
    status_of(&cause)
}
