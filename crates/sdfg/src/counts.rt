ghost use Rattle.std.specs.Prelude.{◌≡◌, ◌+◌, ◌-◌, ◌^◌, ◌≤◌, min, vec_len, IfOk, IsErr, IsErrOf, if◌then◌else◌};
ghost use Rattle.sd_io.specs.Shelf.{IsTold, IsToldLonger};
ghost use Rattle.sd_io.specs.Calls.{is_fault, is_overrun};

use sd_io::ShelfError;
use std::alloc::Global;
use std::io::{self, Read};

/// The most bytes that one read asks for.
const PIECE: usize = 16 * 1024;

/// How often an open or a read failed, and how often a file was too long.
#[derive(Drop)]
pub(crate) struct Counts {
    pub(crate) faults: u64,
    pub(crate) overruns: u64,
}

impl Counts {
    /// The content of a file of at most `most` bytes, which was opened or not. Counts what
    /// goes wrong.
    pub(crate) fn read<F: Read + Drop>(
        &mut self,
        file: io::Result<F>,
        alloc: Global,
        most: usize,
    ) -> Result<Vec<u8>, ShelfError>
        ensures unopened { IsErr file → IsErrOf result ShelfError.Failed }
        ensures content { IfOk file (λ file. IfOk result (λ bytes. IsTold (F.remaining file) bytes.items)) }
        ensures within { IfOk result (λ bytes. vec_len bytes ≤ most) }
        ensures too_long { IfOk file (λ file. IsErrOf result ShelfError.TooLong → IsToldLonger (F.remaining file) most) }
        ensures faults { self.new.faults ≡ (if is_fault result then min (self.old.faults + 1) (2 ^ 64 - 1) else self.old.faults) }
        ensures overruns { self.new.overruns ≡ (if is_overrun result then min (self.old.overruns + 1) (2 ^ 64 - 1) else self.old.overruns) }
        ensures faults_never_fall { self.old.faults ≤ self.new.faults }
        ensures overruns_never_fall { self.old.overruns ≤ self.new.overruns }
    {
        let read = match file {
            Ok(mut file) => read_whole(&mut file, alloc, most),
            Err(_) => Err(ShelfError::Failed),
        };
        match &read {
            Err(ShelfError::Failed) => self.faults = self.faults.saturating_add(1),
            Err(ShelfError::TooLong) => self.overruns = self.overruns.saturating_add(1),
            Err(ShelfError::Memory) | Ok(_) => {}
        }
        read
    }
}

/// All that a reader has left, of at most `most` bytes. It asks for at most one byte more.
///
/// It fails only where the reader did.
fn read_whole<F: Read>(file: &mut F, alloc: Global, most: usize) -> Result<Vec<u8>, ShelfError>
    ensures content { IfOk result (λ bytes. IsTold (F.remaining file.old) bytes.items) }
    ensures within { IfOk result (λ bytes. vec_len bytes ≤ most) }
    ensures too_long { IsErrOf result ShelfError.TooLong → IsToldLonger (F.remaining file.old) most }
{
    let mut bytes = Vec::new(alloc);
    let mut piece = [0u8; PIECE];
    loop {
        let room = most - bytes.len();
        let asked = PIECE.min(room.saturating_add(1));
        let Ok(count) = file.read(&mut piece[..asked]) else {
            return Err(ShelfError::Failed);
        };
        if count == 0 {
            return Ok(bytes);
        }
        if count > room {
            return Err(ShelfError::TooLong);
        }
        if bytes.extend_from_slice(&piece[..count]).is_err() {
            return Err(ShelfError::Memory);
        }
    }
}
