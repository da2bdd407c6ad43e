//! A scope with the accesses of its body.
ghost use Rattle.std.specs.Prelude.{◌≡◌, map};
ghost use Rattle.sd_graph.specs.TreeFold.{named_container};
ghost use Rattle.sd_prop.specs.propagation.Scopes.{is_sequential};
ghost use Rattle.sd_prop.specs.collecting.Plain.{over_of};

use crate::collecting::access::Access;
use indexmap::IndexMap;
use sd_graph::Container;
use sd_list::Sequence;
use sd_range::Range;
use std::marker::Model;

/// What the body of a scope is done for.
#[derive(Drop)]
pub enum Over {
    /// Each point of a map with these parameters, one after another where it is sequential.
    Points {
        params: Vec<(u32, Range)>,
        sequential: bool,
    },
    /// Each element of a stream.
    Elements,
}

/// A scope of a graph: its path of states and nodes in turn, the containers of its graph, the
/// parameters of the maps around it from the outermost, what its body is done for, and the accesses of
/// its body to other containers than its own.
#[derive(Drop)]
pub struct Scope<'a> {
    path: Sequence<u32>,
    containers: &'a IndexMap<String, Container>,
    around: Sequence<(u32, Range)>,
    over: Over,
    accesses: Sequence<Access>,
}

impl<'a> Model for Scope<'a> {
    ghost use Rattle.std.specs.Prelude.{map};
    ghost use Rattle.sd_graph.specs.TreeFold.{named_container};
    ghost use Rattle.sd_prop.specs.propagation.Scopes as plain;
    ghost use Rattle.sd_prop.specs.collecting.Plain.{over_of};

    ghost Value = { plain.Scope };

    ghost view = { λ s. record { path = s.path; containers = map named_container s.containers.now.entries; around = s.around; over = over_of s.over; accesses = s.accesses } };
}

impl<'a> Scope<'a> {
    pub(crate) fn new(
        path: Sequence<u32>,
        containers: &'a IndexMap<String, Container>,
        around: Sequence<(u32, Range)>,
        over: Over,
        accesses: Sequence<Access>,
    ) -> Scope<'a>
        ensures { result ≡ record { path = path; containers = map named_container containers.now.entries; around = around; over = over_of over; accesses = accesses } }
    {
        Scope {
            path,
            containers,
            around,
            over,
            accesses,
        }
    }

    pub fn path(&self) -> &[u32]
        ensures { result.now ≡ self.now.path }
    {
        self.path.as_slice()
    }

    pub fn containers(&self) -> &IndexMap<String, Container>
        ensures { map named_container result.now.entries ≡ self.now.containers }
    {
        self.containers
    }

    pub fn around(&self) -> &[(u32, Range)]
        ensures { result.now ≡ self.now.around }
    {
        self.around.as_slice()
    }

    pub fn over(&self) -> &Over
        ensures { over_of result.now ≡ self.now.over }
    {
        &self.over
    }

    /// Whether it is a map whose points come one after another.
    pub fn is_sequential(&self) -> bool
        ensures { result ≡ is_sequential self.now.over }
    {
        match &self.over {
            Over::Points { sequential, .. } => *sequential,
            Over::Elements => false,
        }
    }

    pub fn accesses(&self) -> &[Access]
        ensures { result.now ≡ self.now.accesses }
    {
        self.accesses.as_slice()
    }
}
