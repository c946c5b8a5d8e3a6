// How an input moves the bound, and whether it is misplaced, or below the bound.
ghost use Rattle.std.specs.Prelude.{◌≡◌};
ghost use Rattle.event_model.specs.Presence.{History, added, extended, in_batch, raised, is_below, is_misplaced};
ghost use Rattle.change_meaning.specs.Moved.{AreSpans};

use event_model::Input;

/// How far an input raises the bound: an event to its time less the lateness, where one is given.
#[tactic(auto, using(crate::proofs::HistoryLaws::raised_more))]
pub fn raised(late: Option<u64>, input: &Input) -> u64
    ensures raised { result ≡ raised late input.now }
    ensures spans { AreSpans (added input.now) }
{
    match input {
        Input::Add(event) => {
            let time = event.span.end();
            match late {
                Some(late) => time.saturating_sub(late),
                None => 0,
            }
        }
        Input::Advance(time) => *time,
        Input::Take(_) | Input::Nothing | Input::Begin | Input::Commit => 0,
    }
}

/// Whether an input begins a batch in a batch, or ends one where there is none.
pub fn is_misplaced(in_a_batch: bool, input: &Input) -> bool
    ensures { (history : History) → in_a_batch ≡ in_batch history → result ≡ is_misplaced history input.now }
{
    match input {
        Input::Begin => in_a_batch,
        Input::Commit => !in_a_batch,
        Input::Add(_) | Input::Take(_) | Input::Advance(_) | Input::Nothing => false,
    }
}

/// Whether the time of an input is below the bound.
pub fn is_below(bound: u64, input: &Input) -> bool
    ensures { result ≡ is_below bound input.now }
{
    match input {
        Input::Add(event) => event.time() < bound,
        Input::Take(event) => event.time() < bound,
        Input::Advance(time) => *time < bound,
        Input::Nothing | Input::Begin | Input::Commit => false,
    }
}

/// Whether a batch is open after an input, where it's known whether one is open before it.
pub fn is_in_batch_after(in_a_batch: bool, input: &Input) -> bool
    ensures { (history : History) → in_a_batch ≡ in_batch history → result ≡ in_batch (extended history input.now) }
{
    match input {
        Input::Begin => true,
        Input::Commit => false,
        Input::Add(_) | Input::Take(_) | Input::Advance(_) | Input::Nothing => in_a_batch,
    }
}
