use crate::row::track::Track;
use sd_num::Resolution;
use sd_tcode::Spaced;

/// Where an output goes at the points of a row.
#[derive(Clone, Copy)]
pub struct Write {
    pub connector: u32,
    pub by: Option<Resolution>,
    pub to: Track,
}

/// Where the accesses of a tasklet lead at the points of a row: an element for each input, the values of its variables, and the
/// writes in the order in which the outputs are set.
#[derive(Drop)]
pub struct Row {
    pub reads: Vec<Track>,
    pub variables: Vec<Spaced>,
    pub writes: Vec<Write>,
}
