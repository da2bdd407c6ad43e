ghost use Rattle.std.specs.Prelude.{◌≡◌, [], Some};

use crate::sink::{Sink, SinkError};
use std::alloc::Global;
use std::marker::Model;

/// A sink in memory that never faults. Contracts see it as the bytes that it took.
#[derive(Drop)]
pub struct SureSink {
    taken: Vec<u8>,
}

impl Model for SureSink {
    ghost use Rattle.std.specs.Prelude.{ℕ, List};

    ghost Value = { List ℕ };

    ghost view = { λ sink. sink.taken.items };
}

impl SureSink {
    /// A sink that took nothing yet.
    pub fn new(alloc: Global) -> SureSink
        ensures { result ≡ [] }
    {
        SureSink {
            taken: Vec::new(alloc),
        }
    }

    /// All the bytes that were taken.
    pub fn bytes(&self) -> &[u8]
        ensures { result.now ≡ self.now }
    {
        &self.taken
    }
}

impl Sink for SureSink {
    ghost use Rattle.std.specs.Prelude.{Some};

    ghost taken = { λ sink. Some sink };

    ghost faults = { λ _. 0 };

    fn write(&mut self, piece: &[u8]) -> Result<(), SinkError> {
        self.taken
            .extend_from_slice(piece)
            .map_err(|_| SinkError::Memory)
    }
}
