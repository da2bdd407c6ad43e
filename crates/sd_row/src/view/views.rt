use crate::instance::Target;
use crate::view::window::Window;
use sd_tcode::Spaced;

/// Where the accesses of a tasklet lead whose inputs are read where they stand: a window for each input, the extents of each
/// output, the values of its variables, and a target for each output.
#[derive(Drop)]
pub struct Views {
    pub inputs: Vec<Window>,
    pub outputs: Vec<Vec<u64>>,
    pub variables: Vec<Spaced>,
    pub targets: Vec<Target>,
}
