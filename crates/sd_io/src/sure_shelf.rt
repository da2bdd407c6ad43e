ghost use Rattle.std.specs.Prelude.{◌≡◌, ◌≤◌, ◌+◌, ◌-◌, ◌^◌, ◌↔◌, map, min, vec_len, Some, None, IfOk, IsErrOf, if◌then◌else◌};
ghost use Rattle.sd_io.specs.Files.{plain_file, content_of};
ghost use Rattle.sd_io.specs.Shelf.{IsToldLonger};
ghost use Rattle.sd_io.specs.Calls.{is_fault, is_overrun};

use crate::files::find;
use crate::shelf::{Shelf, ShelfError};
use std::alloc::Global;
use std::marker::Model;

/// A shelf in memory that fails exactly at the names that it does not hold.
#[derive(Drop)]
pub struct SureShelf {
    files: Vec<(String, Vec<u8>)>,
    missing: u64,
    overruns: u64,
}

impl Model for SureShelf {
    ghost use Rattle.std.specs.Prelude.{map};
    ghost use Rattle.sd_io.specs.Files.{Held, plain_file};

    ghost Value = { Held };

    ghost view = { λ s. record { files = map plain_file s.files.items; missing = s.missing; overruns = s.overruns } };
}

impl SureShelf {
    /// A shelf that holds these files. Of two with one name the first counts.
    pub fn new(files: Vec<(String, Vec<u8>)>) -> SureShelf
        ensures { result ≡ record { files = map plain_file files.items; missing = 0; overruns = 0 } }
    {
        SureShelf {
            files,
            missing: 0,
            overruns: 0,
        }
    }
}

impl Shelf for SureShelf {
    ghost use Rattle.sd_io.specs.Files.{content_of, faults_of};

    ghost told = { λ held name. content_of held.files name };

    ghost faults = { faults_of };

    ghost overruns = { λ held _. held.overruns };

    fn read(&mut self, alloc: Global, name: &str, most: usize) -> Result<Vec<u8>, ShelfError>
        ensures absent { IsErrOf result ShelfError.Failed ↔ (content_of self.old.files name.now ≡ None) }
        ensures content { IfOk result (λ bytes. content_of self.old.files name.now ≡ Some bytes.items) }
        ensures within { IfOk result (λ bytes. vec_len bytes ≤ most) }
        ensures too_long { IsErrOf result ShelfError.TooLong → IsToldLonger (content_of self.old.files name.now) most }
        ensures missing { self.new.missing ≡ (if is_fault result then min (self.old.missing + 1) (2 ^ 64 - 1) else self.old.missing) }
        ensures overruns { self.new.overruns ≡ (if is_overrun result then min (self.old.overruns + 1) (2 ^ 64 - 1) else self.old.overruns) }
        ensures missing_never_falls { self.old.missing ≤ self.new.missing }
        ensures overruns_never_fall { self.old.overruns ≤ self.new.overruns }
        ensures files { self.new.files ≡ self.old.files }
    {
        let Some(content) = find(&self.files, name) else {
            self.missing = self.missing.saturating_add(1);
            return Err(ShelfError::Failed);
        };
        if content.len() > most {
            self.overruns = self.overruns.saturating_add(1);
            return Err(ShelfError::TooLong);
        }
        Vec::from_slice(alloc, content).map_err(|_| ShelfError::Memory)
    }
}
