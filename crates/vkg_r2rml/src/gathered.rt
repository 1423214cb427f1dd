ghost use Rattle.std.specs.Prelude.{◌≡◌, ◌++◌, ◌∷◌, [], List, OnOk};
ghost use Rattle.vkg_r2rml.specs.Checked.{Checked as CheckedPart, all_of};
ghost use Rattle.vkg_r2rml.specs.Gathered.{IsGathered};

use crate::checked::{Checked, lesser, unless};
use std::alloc::Global;
use vkg_base::{Items, Memory};

/// Parts whose checks do not need each other, as far as they are read: the values, and the least check that fails.
#[derive(Drop)]
pub struct Gathered<T> {
    values: Items<T>,
    fault: Option<u8>,
}

impl<T: Drop> Gathered<T> {
    /// No parts.
    pub fn new(alloc: Global) -> Gathered<T>
        ensures { IsGathered [] result }
    {
        Gathered {
            values: Items::new(alloc),
            fault: None,
        }
    }

    /// One more part.
    pub fn add(&mut self, part: Checked<T>) -> Result<(), Memory>
        ensures { OnOk result ((parts : List (CheckedPart T)) → IsGathered parts self.old → IsGathered (parts ++ part ∷ []) self.new) }
    {
        match part {
            Ok(value) => {
                self.values.push(value)?;
                Ok(())
            }
            Err(check) => {
                self.fault = lesser(self.fault, Some(check));
                Ok(())
            }
        }
    }

    /// All values, or the least check that fails.
    pub fn all(self) -> Checked<Items<T>>
        ensures { (parts : List (CheckedPart T)) → IsGathered parts self → result ≡ all_of parts }
    {
        unless(self.fault, self.values)
    }
}
