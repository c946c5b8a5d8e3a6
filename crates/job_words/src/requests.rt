// What the values of the arguments ask for.
ghost use Rattle.std.specs.Prelude.{◌≡◌, ◌<◌, ◌^◌, MatchOption, true, length, option_map};
ghost use Rattle.std.specs.List.{list_all};
ghost use Rattle.std.specs.Str.Parse.{digits_value};
ghost use Rattle.job_words.specs.Account.{as_list, two};
ghost use Rattle.job_words.specs.Words.{mode_said, is_digit, said_to, number_to, fits, job_of};
ghost use Rattle.job_words.specs.Requests.{requested};

use crate::jobs::{LINES_UNSAID, MOST_LATE, MOST_LINES, MOST_SEED, Mode, SEED_UNSAID};

fn mode_said(word: &str) -> Option<Mode>
    ensures { result ≡ mode_said word.now }
{
    match word {
        "run" => Some(Mode::Run),
        "check" => Some(Mode::Check),
        "scratch" => Some(Mode::Scratch),
        "held" => Some(Mode::Held),
        "drill" => Some(Mode::Drill),
        _ => None,
    }
}

fn all_digits(word: &[u8]) -> bool
    ensures { result ≡ list_all is_digit word.now }
{
    word.iter().all(|byte| *byte >= b'0' && *byte <= b'9')
}

// The number that a word of digits says, where it has 64 bits.
fn read_digits(word: &str) -> Option<u64>
    requires { list_all is_digit word.now ≡ true }
    ensures { MatchOption result
        (0 < length word.now → digits_value 10 word.now < 2 ^ 64 → ⊥)
        (λ number. (0 < length word.now) × (number ≡ digits_value 10 word.now)) }
{
    match word.parse::<u64>() {
        Ok(number) => Some(number),
        Err(_) => None,
    }
}

// The number that a word says, where it is digits alone and at most `most`.
fn read_number(word: &str, most: u64) -> Option<u64>
    ensures { result ≡ number_to most word.now }
{
    if !all_digits(word.as_bytes()) {
        return None;
    }
    let number = read_digits(word)?;
    if number > most {
        return None;
    }
    Some(number)
}

// What an option says: nothing where it isn't given.
fn read_option(word: Option<&str>, most: u64) -> Option<Option<u64>>
    ensures { result ≡ said_to most (as_list (option_map (λ w. w.now) word.entry)) }
{
    match word {
        None => Some(None),
        Some(word) => match read_number(word, most) {
            Some(number) => Some(Some(number)),
            None => None,
        },
    }
}

// Whether the mode has the options that are given.
fn fits(mode: Mode, late: Option<u64>, seed: Option<u64>, lines: Option<u64>) -> bool
    ensures { result ≡ fits mode late seed lines }
{
    match mode {
        Mode::Run | Mode::Scratch | Mode::Held => seed.is_none() && lines.is_none(),
        Mode::Check => late.is_none() && seed.is_none() && lines.is_none(),
        Mode::Drill => true,
    }
}

// A job whose text is still that of the words.
#[derive(Drop)]
pub struct Request<'a> {
    pub mode: Mode,
    pub rules: &'a str,
    pub late: Option<u64>,
    pub seed: u64,
    pub lines: u64,
}

// What the values of the arguments ask for, each that of the only word it was given.
pub fn read_request<'a>(
    mode: Option<&'a str>,
    rules: Option<&'a str>,
    late: Option<&'a str>,
    seed: Option<&'a str>,
    lines: Option<&'a str>,
) -> Option<Request<'a>>
    ensures { option_map requested result ≡ job_of
        (two (option_map (λ s. s.now) mode.entry) (option_map (λ s. s.now) rules.entry))
        (as_list (option_map (λ s. s.now) late.entry))
        (as_list (option_map (λ s. s.now) seed.entry))
        (as_list (option_map (λ s. s.now) lines.entry)) }
{
    let mode = mode?;
    let rules = rules?;
    let mode = mode_said(mode)?;
    let late = read_option(late, MOST_LATE)?;
    let seed = read_option(seed, MOST_SEED)?;
    let lines = read_option(lines, MOST_LINES)?;
    if !fits(mode, late, seed, lines) {
        return None;
    }
    Some(Request {
        mode,
        rules,
        late,
        seed: seed.unwrap_or(SEED_UNSAID),
        lines: lines.unwrap_or(LINES_UNSAID),
    })
}
