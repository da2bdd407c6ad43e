ghost use Rattle.std.specs.Prelude.{◌≡◌};

use crate::counts::Counts;
use sd_io::{Shelf, ShelfError};
use std::alloc::Global;
use std::fs;
use std::rt::Files;

/// A shelf over the files of a runtime. It tells no content, and all names share its counts.
#[derive(Drop)]
pub struct FileShelf<'a, R> {
    files: &'a R,
    counts: Counts,
}

impl<'a, R> FileShelf<'a, R> {
    /// A shelf over these files, at which nothing went wrong yet.
    pub fn new(files: &'a R) -> FileShelf<'a, R>
        ensures { result.counts ≡ record { faults = 0; overruns = 0 } }
    {
        FileShelf {
            files,
            counts: Counts {
                faults: 0,
                overruns: 0,
            },
        }
    }
}

impl<R: Files> Shelf for FileShelf<'_, R> {
    ghost use Rattle.std.specs.Prelude.{None};

    ghost told = { λ _ _. None };

    ghost faults = { λ shelf _. shelf.counts.faults };

    ghost overruns = { λ shelf _. shelf.counts.overruns };

    fn read(&mut self, alloc: Global, name: &str, most: usize) -> Result<Vec<u8>, ShelfError> {
        self.counts.read(fs::open(self.files, name), alloc, most)
    }
}
