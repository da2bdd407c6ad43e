ghost use Rattle.std.specs.Prelude.{◌≡◌, ℕ, ◌≤◌, List, Option, IfOk, IsErrOf, vec_len};
ghost use Rattle.sd_io.specs.Count.{HasRisen};
ghost use Rattle.sd_io.specs.Shelf.{IsTold, IsToldLonger};

use std::alloc::Global;
use thiserror::Error;

/// Why a shelf did not give a file.
#[derive(Clone, Copy, Debug, PartialEq, Eq, Error)]
pub enum ShelfError {
    /// The file is missing, or its device failed.
    #[error("the file cannot be read")]
    Failed,
    /// The file has more bytes than the caller takes.
    #[error("the file is too long")]
    TooLong,
    /// There is no room for the content.
    #[error("out of memory")]
    Memory,
}

/// Named files that are read whole.
///
/// A shelf has three meanings: the content of each name, where it tells one; for each name
/// a count of faults; and for each name a number of overruns. Names may share a count.
pub trait Shelf {
    ghost told: { Self → List ℕ → Option (List ℕ) };

    ghost faults: { Self → List ℕ → ℕ };

    ghost overruns: { Self → List ℕ → ℕ };

    /// The content of a file of at most `most` bytes.
    ///
    /// A missing file is a fault. Where the file is neither faulty nor too long, want of
    /// memory may still refuse it.
    fn read(&mut self, alloc: Global, name: &str, most: usize) -> Result<Vec<u8>, ShelfError>
        ensures content { IfOk result (λ bytes. IsTold (told self.old name.now) bytes.items) }
        ensures within { IfOk result (λ bytes. vec_len bytes ≤ most) }

        ensures failed { IsErrOf result ShelfError.Failed → HasRisen (faults self.old name.now) (faults self.new name.now) }
        ensures too_long { IsErrOf result ShelfError.TooLong → IsToldLonger (told self.old name.now) most }
        ensures overrun { IsErrOf result ShelfError.TooLong → HasRisen (overruns self.old name.now) (overruns self.new name.now) }

        ensures told_stays { (other : List ℕ) → told self.new other ≡ told self.old other }
        ensures faults_never_fall { (other : List ℕ) → faults self.old other ≤ faults self.new other }
        ensures overruns_never_fall { (other : List ℕ) → overruns self.old other ≤ overruns self.new other };
}
