// The changes of a line, and the progress of the work on it.
ghost use Rattle.std.specs.Prelude.{◌≡◌};
ghost use Rattle.event_changes.specs.Told.{changes_left, signed};

use event_model::Detection;

/// Whether a turn has left work.
#[derive(Clone, Copy, Debug, PartialEq, Eq)]
pub enum Progress {
    More,
    Done,
}

/// Whether a detection has come or gone.
#[derive(Clone, Copy, Debug, PartialEq, Eq)]
pub enum Sign {
    Plus,
    Minus,
}

/// A detection that has come or gone.
#[derive(Clone, Copy)]
pub struct Changed<'a> {
    pub sign: Sign,
    pub detection: &'a Detection,
}

/// Goes over the changes of a line: what has gone, and then what has come.
#[derive(Drop)]
pub struct Changes<'a> {
    minus: &'a [Detection],
    plus: &'a [Detection],
}

impl<'a> Changes<'a> {
    /// The detections of the first list as gone, and then those of the second as come.
    pub fn over(minus: &'a [Detection], plus: &'a [Detection]) -> Changes<'a>
        ensures { changes_left result ≡ signed minus.now plus.now }
    {
        Changes { minus, plus }
    }
}

impl<'a> Iterator for Changes<'a> {
    ghost use Rattle.std.specs.Iterator.{item_count, YieldsFirstBy};
    ghost use Rattle.event_changes.specs.Told.{changes_left, plain_changed};

    type Item = Changed<'a>;

    ghost next_gives = { YieldsFirstBy plain_changed changes_left };

    ghost remaining = { item_count changes_left };

    fn next(&mut self) -> Option<Changed<'a>> {
        if let Some((detection, rest)) = self.minus.split_first() {
            self.minus = rest;
            return Some(Changed {
                sign: Sign::Minus,
                detection,
            });
        }
        let (detection, rest) = self.plus.split_first()?;
        self.plus = rest;
        Some(Changed {
            sign: Sign::Plus,
            detection,
        })
    }
}
