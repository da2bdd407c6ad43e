ghost use Rattle.std.specs.Prelude.{◌≡◌, ℕ, take, OnOk, OnErr, IsErrOf};
ghost use Rattle.std.specs.Io.KnownBytes.{Appends};

use sd_io::{Sink, SinkError};
use std::io::Write;

/// A sink over a writer. It tells of the bytes taken what the writer tells: over standard
/// output that is nothing.
#[derive(Drop)]
pub struct OutSink<W> {
    out: W,
    faults: u64,
}

impl<W: Write> OutSink<W> {
    /// A sink over this writer, at which nothing went wrong yet.
    pub fn new(out: W) -> OutSink<W>
        ensures taken { ⟦<OutSink<W> as Sink>⟧.taken result ≡ W.contents out }
        ensures faults { ⟦<OutSink<W> as Sink>⟧.faults result ≡ 0 }
    {
        OutSink { out, faults: 0 }
    }
}

impl<W: Write> Sink for OutSink<W> {
    ghost taken = { λ sink. W.contents sink.out };

    ghost faults = { λ sink. sink.faults };

    fn write(&mut self, piece: &[u8]) -> Result<(), SinkError> {
        let wrote = write_whole(&mut self.out, piece);
        if wrote.is_err() {
            self.faults = self.faults.saturating_add(1);
        }
        wrote
    }
}

/// Writes a piece to its end, or until the writer fails or takes nothing of what is left.
fn write_whole<W: Write>(out: &mut W, piece: &[u8]) -> Result<(), SinkError>
    ensures failed { OnErr result (IsErrOf result SinkError.Failed) }
    ensures whole { OnOk result (Appends (W.contents out.old) (W.contents out.new) piece.now) }
    ensures prefix { (count : ℕ) × Appends (W.contents out.old) (W.contents out.new) (take count piece.now) }
{
    let mut taken = 0;
    while taken < piece.len() {
        match out.write(&piece[taken..]) {
            Ok(0) | Err(_) => return Err(SinkError::Failed),
            Ok(count) => taken += count,
        }
    }
    Ok(())
}
