ghost use Rattle.std.specs.Prelude.{◌≡◌, ◌≤◌, ◌==◌, IfOk, OnOk, OnErr, IsErrOf};
ghost use Rattle.std.specs.List.{position};
ghost use Rattle.sd_io.specs.Count.{HasRisen};
ghost use Rattle.sd_io.specs.Sink.{Appends, AppendsPrefix};
ghost use Rattle.sd_report.specs.write.Pieces as pieces;
ghost use Rattle.sd_report.specs.write.Pieces.{AppendsAllBut};

use sd_io::{Sink, SinkError};

/// The most bytes that one write takes.
const PIECE: usize = 4096;

/// Where the first newline stands.
fn newline(bytes: &[u8]) -> Option<usize>
    ensures { result ≡ position (λ byte. byte == 10) bytes.now }
{
    bytes.iter().position(|byte| *byte == b'\n')
}

/// How many bytes the next write takes: a line with its newline, or so much of it as one write takes.
fn piece_length(text: &[u8]) -> usize
    ensures { result ≡ pieces.piece_length text.now }
{
    let most = &text[..text.len().min(PIECE)];
    match newline(most) {
        Some(place) => place + 1,
        None => most.len(),
    }
}

/// Writes a text, each line by a write of its own; a line longer than 4,096 bytes goes in pieces of 4,096.
#[inline(never)]
pub fn write_text<K: Sink>(out: &mut K, text: &[u8]) -> Result<(), SinkError>
    ensures ok { OnOk result (Appends (K.taken out.old) (K.taken out.new) text.now) }
    ensures err { OnErr result (AppendsPrefix (K.taken out.old) (K.taken out.new) text.now) }
    ensures failed { IsErrOf result SinkError.Failed → HasRisen (K.faults out.old) (K.faults out.new) }
    ensures faults_never_fall { K.faults out.old ≤ K.faults out.new }
{
    let mut rest = text;
    while !rest.is_empty() {
        let (piece, others) = rest.split_at(piece_length(rest));
        out.write(piece)?;
        rest = others;
    }
    Ok(())
}

/// Writes a text in pieces of 4,096 bytes, whatever lines it has.
fn write_bytes<K: Sink>(out: &mut K, text: &[u8]) -> Result<(), SinkError>
    ensures ok { OnOk result (Appends (K.taken out.old) (K.taken out.new) text.now) }
    ensures err { OnErr result (AppendsPrefix (K.taken out.old) (K.taken out.new) text.now) }
    ensures failed { IsErrOf result SinkError.Failed → HasRisen (K.faults out.old) (K.faults out.new) }
    ensures faults_never_fall { K.faults out.old ≤ K.faults out.new }
{
    let mut rest = text;
    while !rest.is_empty() {
        let (piece, behind) = rest.split_at(rest.len().min(PIECE));
        out.write(piece)?;
        rest = behind;
    }
    Ok(())
}

/// Writes what a line begins with in pieces of 4,096 bytes, and gives what is left of it.
pub(crate) fn write_pieces<K: Sink>(out: &mut K, line: Vec<u8>) -> Result<Vec<u8>, SinkError>
    ensures ok { IfOk result (λ rest. AppendsAllBut (K.taken out.old) (K.taken out.new) line.items rest.items) }
    ensures err { OnErr result (AppendsPrefix (K.taken out.old) (K.taken out.new) line.items) }
    ensures failed { IsErrOf result SinkError.Failed → HasRisen (K.faults out.old) (K.faults out.new) }
    ensures faults_never_fall { K.faults out.old ≤ K.faults out.new }
{
    if line.len() < PIECE {
        return Ok(line);
    }
    let whole = line.len() - line.len() % PIECE;
    let mut line = line;
    let Ok(rest) = line.split_off(whole) else {
        return Err(SinkError::Memory);
    };
    write_bytes(out, line.as_slice())?;
    Ok(rest)
}
