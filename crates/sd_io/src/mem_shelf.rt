ghost use Rattle.std.specs.Prelude.{◌≡◌, ◌≤◌, ◌+◌, ◌-◌, ◌^◌, ◌⊎◌, map, min, vec_len, Some, None, IfOk, IsErrOf, Contains, if◌then◌else◌};
ghost use Rattle.sd_io.specs.Files.{plain_file, content_of};
ghost use Rattle.sd_io.specs.Shelf.{IsToldLonger};
ghost use Rattle.sd_io.specs.Calls.{is_fault, is_overrun};

use crate::files::find;
use crate::shelf::{Shelf, ShelfError};
use std::alloc::Global;
use std::marker::Model;

/// A shelf in memory that fails at the listed calls, counted from 0, and at each name that
/// it does not hold.
#[derive(Drop)]
pub struct MemShelf {
    files: Vec<(String, Vec<u8>)>,
    failing: Vec<u64>,
    calls: u64,
    faults: u64,
    overruns: u64,
}

impl Model for MemShelf {
    ghost use Rattle.std.specs.Prelude.{map};
    ghost use Rattle.sd_io.specs.Files.{plain_file};
    ghost use Rattle.sd_io.specs.Calls.{FailingShelf};

    ghost Value = { FailingShelf };

    ghost view = { λ s. record { files = map plain_file s.files.items; failing = s.failing.items; calls = s.calls; faults = s.faults; overruns = s.overruns } };
}

impl MemShelf {
    /// A shelf that holds these files and fails at these calls. Of two files with one name
    /// the first counts.
    pub fn new(files: Vec<(String, Vec<u8>)>, failing: Vec<u64>) -> MemShelf
        ensures { result ≡ record { files = map plain_file files.items; failing = failing.items; calls = 0; faults = 0; overruns = 0 } }
    {
        MemShelf {
            files,
            failing,
            calls: 0,
            faults: 0,
            overruns: 0,
        }
    }
}

impl Shelf for MemShelf {
    ghost use Rattle.sd_io.specs.Files.{content_of};

    ghost told = { λ shelf name. content_of shelf.files name };

    ghost faults = { λ shelf _. shelf.faults };

    ghost overruns = { λ shelf _. shelf.overruns };

    fn read(&mut self, alloc: Global, name: &str, most: usize) -> Result<Vec<u8>, ShelfError>
        ensures fails { Contains self.old.failing self.old.calls → IsErrOf result ShelfError.Failed }
        ensures missing { content_of self.old.files name.now ≡ None → IsErrOf result ShelfError.Failed }
        ensures fails_only { IsErrOf result ShelfError.Failed → Contains self.old.failing self.old.calls ⊎ (content_of self.old.files name.now ≡ None) }
        ensures content { IfOk result (λ bytes. content_of self.old.files name.now ≡ Some bytes.items) }
        ensures within { IfOk result (λ bytes. vec_len bytes ≤ most) }
        ensures too_long { IsErrOf result ShelfError.TooLong → IsToldLonger (content_of self.old.files name.now) most }
        ensures calls { self.new.calls ≡ min (self.old.calls + 1) (2 ^ 64 - 1) }
        ensures faults { self.new.faults ≡ (if is_fault result then min (self.old.faults + 1) (2 ^ 64 - 1) else self.old.faults) }
        ensures overruns { self.new.overruns ≡ (if is_overrun result then min (self.old.overruns + 1) (2 ^ 64 - 1) else self.old.overruns) }
        ensures faults_never_fall { self.old.faults ≤ self.new.faults }
        ensures overruns_never_fall { self.old.overruns ≤ self.new.overruns }
        ensures files { self.new.files ≡ self.old.files }
        ensures failing { self.new.failing ≡ self.old.failing }
    {
        let call = self.calls;
        self.calls = call.saturating_add(1);
        if self.failing.contains(&call) {
            self.faults = self.faults.saturating_add(1);
            return Err(ShelfError::Failed);
        }
        let Some(content) = find(&self.files, name) else {
            self.faults = self.faults.saturating_add(1);
            return Err(ShelfError::Failed);
        };
        if content.len() > most {
            self.overruns = self.overruns.saturating_add(1);
            return Err(ShelfError::TooLong);
        }
        Vec::from_slice(alloc, content).map_err(|_| ShelfError::Memory)
    }
}
