//! How the values of a map's first parameter are shared out among its pieces.
ghost use Rattle.std.specs.Prelude.{◌≡◌, ◌≤◌, ◌<◌, ◌^◌};
ghost use Rattle.sd_lower.specs.Pieces as definition;

/// The values that a piece has of a map's first parameter: so many, from the one of number `first` on.
#[derive(Clone, Copy, Debug, PartialEq, Eq)]
pub struct PieceValues {
    pub first: u128,
    pub count: u128,
}

/// How many pieces a map has whose first parameter has so many values: as many as workers, or as values where these are fewer.
pub fn piece_count(values: u128, workers: u64) -> u64
    ensures { result ≡ definition.piece_count values workers }
{
    match u64::try_from(values) {
        Ok(values) => values.min(workers),
        Err(_) => workers,
    }
}

/// How many values stand before a piece of so many pieces, or before the end of the last one.
fn values_before(values: u128, pieces: u64, piece: u64) -> u128
    requires some { 0 < pieces }
    requires few { pieces ≤ 64 }
    requires there { piece ≤ pieces }
    requires small { values < 2 ^ 120 }
    ensures { result ≡ definition.before_piece values pieces piece }
{
    u128::from(piece) * values / u128::from(pieces)
}

/// The values of a piece of a map whose first parameter has so many values, below 2^120, where there are at most 64 workers.
pub fn values_of_piece(values: u128, workers: u64, piece: u64) -> PieceValues
    requires there { piece < definition.piece_count values workers }
    requires few { workers ≤ 64 }
    requires small { values < 2 ^ 120 }
    ensures first { result.first ≡ definition.values_before values workers piece }
    ensures count { result.count ≡ definition.values_in values workers piece }
{
    let pieces = piece_count(values, workers);
    let first = values_before(values, pieces, piece);
    let end = values_before(values, pieces, piece + 1);
    PieceValues {
        first,
        count: end - first,
    }
}
