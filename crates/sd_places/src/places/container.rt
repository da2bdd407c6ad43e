//! Containers by their numbers.
ghost use Rattle.std.specs.Prelude.{◌≡◌, ◌<◌, ◌≤◌, length, map, MatchOption};
ghost use Rattle.sd_graph.specs.ContainerParts.{container_at, is_stream, no_container};
ghost use Rattle.sd_graph.specs.TreeFold.{named_container};
ghost use Rattle.sd_validity.specs.rules.StreamUse.{is_stream_at};

use indexmap::IndexMap;
use sd_graph::{Container, ContainerKind};

/// The container of a number, where there is one.
pub fn container_at(containers: &IndexMap<String, Container>, number: u32) -> Option<&Container>
    ensures { MatchOption result ((length containers.now.entries ≤ number) × (container_at (map named_container containers.now.entries) number ≡ no_container.1)) (λ container. (number < length containers.now.entries) × (container.now ≡ container_at (map named_container containers.now.entries) number)) }
{
    match containers.get_index(number as usize) {
        Some((_, container)) => Some(container),
        None => None,
    }
}

/// Whether a kind is that of a stream.
pub fn is_stream(kind: ContainerKind) -> bool
    ensures { result ≡ is_stream kind }
{
    match kind {
        ContainerKind::Argument => false,
        ContainerKind::Transient => false,
        ContainerKind::Private => false,
        ContainerKind::Stream => true,
        ContainerKind::PrivateStream => true,
    }
}

/// Whether there is a stream of this number.
pub fn is_stream_at(containers: &IndexMap<String, Container>, number: u32) -> bool
    ensures { result ≡ is_stream_at (map named_container containers.now.entries) number }
{
    match container_at(containers, number) {
        Some(container) => is_stream(container.kind),
        None => false,
    }
}
