// What was found, by the words of atoms.
ghost use Rattle.std.specs.Prelude.{◌≡◌, ℕ, List, [], OnOk};
ghost use Rattle.pattern_meaning.specs.Found.{with_one};
ghost use Rattle.pattern_meaning.specs.Words.{words_of};

use event_model::{Detection, Name};
use std::alloc::{AllocError, Global};
use std::collections::HashMap;

/// Detections in the order in which they were found, for each word of their atoms.
#[derive(Drop)]
pub(crate) struct Found {
    by_word: HashMap<Name, Vec<Detection>>,
}

impl Found {
    pub(crate) fn new(alloc: Global) -> Found
        ensures { (word : List ℕ) → words_of result word ≡ [] }
    {
        Found {
            by_word: HashMap::new(alloc),
        }
    }

    pub(crate) fn of_word(&self, word: &Name) -> &[Detection]
        ensures { result.now ≡ words_of self.now word.now }
    {
        match self.by_word.get(word) {
            Some(detections) => detections,
            None => &[],
        }
    }

    pub(crate) fn push(&mut self, alloc: Global, detection: Detection) -> Result<(), AllocError>
        ensures { OnOk result (words_of self.new ≡ with_one (words_of self.old) detection) }
    {
        match self.by_word.get_mut(&detection.atom.name) {
            Some(detections) => detections.push(detection)?,
            None => {
                let word = detection.atom.name.share()?;
                self.by_word.insert(word, vec![in alloc; detection]?)?;
            }
        }
        Ok(())
    }
}
