use crate::in_force::Scope;
use indexmap::IndexMap;
use sd_graph::Container;

/// The containers and variables in force, and all containers of the program.
#[derive(Drop)]
pub struct Names {
    pub containers: Scope,
    pub variables: Scope,
    pub all: IndexMap<String, Container>,
}
