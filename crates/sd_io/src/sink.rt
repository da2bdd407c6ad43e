ghost use Rattle.std.specs.Prelude.{ℕ, ◌≤◌, List, [], Option, OnOk, IsErrOf};
ghost use Rattle.sd_io.specs.Count.{HasRisen};
ghost use Rattle.sd_io.specs.Sink.{Appends, AppendsPrefix};

use thiserror::Error;

/// Why a sink did not take a piece whole.
#[derive(Clone, Copy, Debug, PartialEq, Eq, Error)]
pub enum SinkError {
    /// The device failed; a prefix of the piece was taken.
    #[error("the output cannot be written")]
    Failed,
    /// There is no room for the piece; nothing of it was taken.
    #[error("out of memory")]
    Memory,
}

/// Where bytes are written, piece after piece.
///
/// A sink has two meanings: all the bytes that it took so far, where it tells them, and a
/// count of faults.
pub trait Sink {
    ghost taken: { Self → Option (List ℕ) };

    ghost faults: { Self → ℕ };

    /// Takes a piece after all that it took before.
    fn write(&mut self, piece: &[u8]) -> Result<(), SinkError>
        ensures ok { OnOk result (Appends (taken self.old) (taken self.new) piece.now) }

        ensures failed { IsErrOf result SinkError.Failed → HasRisen (faults self.old) (faults self.new) }
        ensures prefix { IsErrOf result SinkError.Failed → AppendsPrefix (taken self.old) (taken self.new) piece.now }
        ensures memory { IsErrOf result SinkError.Memory → Appends (taken self.old) (taken self.new) [] }

        ensures faults_never_fall { faults self.old ≤ faults self.new };
}
