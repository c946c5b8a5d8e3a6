// A generator of numbers.
ghost use Rattle.std.specs.Prelude.{◌≡◌, ◌<◌, ◌%◌};
ghost use Rattle.drill_lines.specs.Drill.{drawn};

use std::marker::Model;

// How many states there are.
pub(crate) const STATES: u64 = 65537;

// The state of a generator, from which each draw makes the next one.
#[derive(Drop)]
pub(crate) struct Draws {
    state: u64,
}

impl Model for Draws {
    ghost use Rattle.std.specs.Prelude.{ℕ, ◌<◌};
    ghost use Rattle.drill_lines.specs.declared.draws.TheConstants.{STATES};

    ghost Value = { ℕ };

    ghost view = { λ d. d.state };

    ghost invariant = { λ d. d.state < STATES };

    ghost inverse = { λ n. record { state = n } };
}

impl Draws {
    pub(crate) fn new(seed: u64) -> Draws
        ensures { result ≡ seed % STATES }
    {
        Draws {
            state: seed % STATES,
        }
    }

    // A number below this one.
    pub(crate) fn draw(&mut self, below: u64) -> u64
        requires { 0 < below }
        ensures state { self.new ≡ drawn self.old }
        ensures number { result ≡ drawn self.old % below }
        ensures range { result < below }
    {
        self.state = (75 * self.state + 74) % STATES;
        self.state % below
    }
}
