ghost use Rattle.std.specs.Prelude.{◌≡◌, ◌<◌, length, Some};
ghost use Rattle.std.specs.List.{slice_get};
ghost use Rattle.std.specs.Option.{option_copied};

use base_core::Text;
use std::marker::Model;

/// What was answered to the reads of a recording, in their order: the value of each key, or none.
#[derive(Debug, Drop)]
pub struct Answers {
    values: Vec<Option<Text>>,
}

impl Model for Answers {
    ghost use Rattle.std.specs.Prelude.{List, Option, ℕ};

    ghost Value = { List (Option (List ℕ)) };

    ghost view = { λ a. a.values.items };
}

impl Answers {
    /// These answers.
    pub(crate) fn new(values: Vec<Option<Text>>) -> Answers
        ensures { result ≡ values.items }
    {
        Answers { values }
    }

    /// How many there are: one for each read. It takes no memory.
    pub fn len(&self) -> u64
        ensures { result ≡ length self.now }
    {
        self.values.len() as u64
    }

    /// What was answered to the read at a place, counted from 0. It takes no memory.
    pub fn at(&self, place: u64) -> Option<&[u8]>
        requires { place < length self.now }
        ensures { slice_get self.now place ≡ Some (option_copied result) }
    {
        match &self.values[place as usize] {
            Some(value) => Some(value.as_slice()),
            None => None,
        }
    }
}
