// The jobs of words.
ghost use Rattle.std.specs.Prelude.{◌≡◌, ◌<◌, ◌≤◌, ◌⊎◌, List, String, map, string_bytes, Some, None, IfOk, IfSome, IsErrOf};
ghost use Rattle.std.specs.declared.alloc.Global.{Global};
ghost use Rattle.event_model.specs.declared.events.TheConstants.{TIME_LIMIT};
ghost use Rattle.drill_lines.specs.declared.lines.TheConstants.{MOST_LINES};
ghost use Rattle.job_words.specs.Words.{PlainJob, InForm, plain_job};
ghost use Rattle.etalis_cli.specs.Words.{form};
ghost use Rattle.etalis_cli.specs.Modes.{voice_of};

use crate::voices::Voice;
use job_words::{Job, Mode, WordsFault, run_words};
use std::alloc::Global;

/// The job that the words say.
#[tactic(auto, using(crate::proofs::JobLaws::said_form, crate::proofs::JobLaws::unsaid_form))]
pub fn read_job(alloc: Global, words: &[String]) -> Result<Job, WordsFault>
    ensures ok { IfOk result (λ job. form words.now ≡ Some (plain_job job)) }
    ensures late { IfOk result (λ job. IfSome job.late (λ late. late < TIME_LIMIT)) }
    ensures lines { IfOk result (λ job. job.lines ≤ MOST_LINES) }
    ensures usage { IsErrOf result WordsFault.Usage → form words.now ≡ None }
    ensures refuses { form words.now ≡ None → IsErrOf result WordsFault.Usage ⊎ IsErrOf result WordsFault.Memory }
{
    run_words(alloc, words)
}

/// How a mode answers lines.
pub fn voice_of(mode: Mode) -> Voice
    ensures { result ≡ voice_of mode }
{
    match mode {
        Mode::Run | Mode::Check => Voice::Replies,
        Mode::Held => Voice::Held,
        Mode::Scratch => Voice::Refusals,
        Mode::Drill => Voice::Counts,
    }
}

/// The job of the words is the one that they say by how they are written.
pub fn jobs_are_as_written()
    ensures sound { (words : List (String Global)) (job : PlainJob) → form words ≡ Some job
        → InForm (map string_bytes words) job }
    ensures complete { (words : List (String Global)) (job : PlainJob) → InForm (map string_bytes words) job
        → form words ≡ Some job }
{}
