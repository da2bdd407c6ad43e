use crate::instance::target::Target;
use crate::row::Track;
use sd_tcode::Spaced;

/// Where the accesses of a tasklet lead: an element for each input, the values of its variables, and a target for each output.
#[derive(Drop)]
pub struct Accesses {
    pub reads: Vec<Track>,
    pub variables: Vec<Spaced>,
    pub targets: Vec<Target>,
}
