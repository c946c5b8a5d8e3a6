// Words to jobs.
ghost use Rattle.std.specs.Prelude.{◌≡◌, ◌<◌, ◌≤◌, ◌⊎◌, IfOk, IfSome, IsErrOf, Some, None, [], map, string_bytes, option_map};
ghost use Rattle.clap.specs.Words.{app_of, fault_of, matches_of, found_of, rows_of, first_of};
ghost use Rattle.job_words.specs.Account.{job_app, form, job_in};
ghost use Rattle.job_words.specs.Words.{PlainJob, InForm, plain_job};
ghost use Rattle.job_words.specs.Requests.{requested};

use crate::jobs::{Job, MOST_LINES, MOST_SEED, WordsFault};
use crate::requests::{Request, read_request};
use clap::error::ErrorKind;
use clap::{Arg, ArgMatches, Command};
use event_model::TIME_LIMIT;
use std::alloc::{AllocError, Global};

// The command line. No argument has a default or a parser of its values, so that what they say is judged here.
fn command<'a>(alloc: Global) -> Result<Command<'a>, AllocError>
    ensures { IfOk result (λ c. app_of c ≡ job_app) }
{
    Command::new(alloc, "etalis")
        .no_binary_name(true)
        .disable_help_flag(true)
        .arg(Arg::new(alloc, "mode"))?
        .arg(Arg::new(alloc, "rules"))?
        .arg(Arg::new(alloc, "late").long("late"))?
        .arg(Arg::new(alloc, "seed").long("seed"))?
        .arg(Arg::new(alloc, "lines").long("lines"))
}

// The words by argument.
fn match_words<'a>(alloc: Global, words: &'a [String]) -> Result<ArgMatches<'a>, WordsFault>
    ensures ok { IfOk result (λ m. fault_of job_app (map string_bytes words.entry.now) ≡ []) }
    ensures rows { IfOk result (λ m. rows_of (found_of m) ≡ matches_of job_app (map string_bytes words.entry.now)) }
    ensures usage { IsErrOf result WordsFault.Usage → fault_of job_app (map string_bytes words.entry.now) ≡ [] → ⊥ }
{
    let command = command(alloc)?;
    match command.try_get_matches_from(words) {
        Ok(matches) => Ok(matches),
        Err(error) => {
            if error.kind() == ErrorKind::OutOfMemory {
                return Err(WordsFault::Memory);
            }
            Err(WordsFault::Usage)
        }
    }
}

// The first word that an argument was given.
fn value_of<'a>(matches: &ArgMatches<'a>, id: &str) -> Option<&'a str>
    ensures { option_map (λ s. s.now) result ≡ first_of id.now (rows_of (found_of matches.now)) }
{
    matches.get_str(id)
}

// What the words that were matched ask for.
fn matched_request<'a>(matches: &ArgMatches<'a>) -> Option<Request<'a>>
    ensures { option_map requested result ≡ job_in (rows_of (found_of matches.now)) }
{
    read_request(
        value_of(matches, "mode"),
        value_of(matches, "rules"),
        value_of(matches, "late"),
        value_of(matches, "seed"),
        value_of(matches, "lines"),
    )
}

// The job that the words give, by the parser's account.
#[tactic(auto, using(crate::proofs::FaultLaws::none_of_fault))]
fn read_job(alloc: Global, words: &[String]) -> Result<Job, WordsFault>
    ensures ok { IfOk result (λ job. form words.now ≡ Some (plain_job job)) }
    ensures usage { IsErrOf result WordsFault.Usage → form words.now ≡ None }
{
    let matches = match_words(alloc, words)?;
    let request = match matched_request(&matches) {
        Some(request) => request,
        None => return Err(WordsFault::Usage),
    };
    Ok(Job {
        mode: request.mode,
        rules: String::from_str(alloc, request.rules)?,
        late: request.late,
        seed: request.seed,
        lines: request.lines,
    })
}

/// The job that the words `MODE RULES [--late N] [--seed N] [--lines N]` say. The options stand anywhere before a word `--`, each at
/// most once, as `--late 5` or `--late=5`; behind `--` every word is MODE or RULES.
pub fn run_words(alloc: Global, words: &[String]) -> Result<Job, WordsFault>
    ensures ok { IfOk result (λ job. InForm (map string_bytes words.now) (plain_job job)) }
    ensures usage { IsErrOf result WordsFault.Usage → (job : PlainJob) → InForm (map string_bytes words.now) job → ⊥ }
    ensures refuses { ((job : PlainJob) → InForm (map string_bytes words.now) job → ⊥)
        → IsErrOf result WordsFault.Usage ⊎ IsErrOf result WordsFault.Memory }
    ensures late { IfOk result (λ job. IfSome job.late (λ late. late < TIME_LIMIT)) }
    ensures seed { IfOk result (λ job. job.seed ≤ MOST_SEED) }
    ensures lines { IfOk result (λ job. job.lines ≤ MOST_LINES) }
{
    read_job(alloc, words)
}
