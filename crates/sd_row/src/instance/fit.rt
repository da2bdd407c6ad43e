//! What a tasklet and its links are.
ghost use Rattle.std.specs.Prelude.{◌≡◌, ◌<◌, ◌^◌, true, IsTrue};
ghost use Rattle.std.specs.List.{AllByRecursion};
ghost use Rattle.sd_num.specs.Wrapped.{wrapped};
ghost use Rattle.sd_range.specs.Affine.{variable_value};
ghost use Rattle.sd_graph.specs.TreeFold.{graph_tree, tasklet_tree};
ghost use Rattle.sd_graph.specs.TreeParts.{containers_of};
ghost use Rattle.sd_graph.specs.ContainerParts.{container_at, is_stream as is_stream_kind};
ghost use Rattle.sd_scope.specs.even.Even.{is_scalar};
ghost use Rattle.sd_row.specs.instance.Fit.{AreFor};

use sd_graph::{ContainerKind, Link, Port, Sdfg, Tasklet};
use sd_num::element_of;
use sd_range::Env;
use sd_scope::has_one_element;

/// Whether there is a link for each connector, and few of them and of the variables.
pub fn are_for_each(tasklet: &Tasklet, ins: &[Link], outs: &[Link]) -> bool
    ensures { IsTrue result → AreFor (tasklet_tree tasklet.now) ins.now outs.now }
{
    if ins.len() != tasklet.ins.len() || outs.len() != tasklet.outs.len() {
        return false;
    }
    is_small(ins.len()) && is_small(tasklet.variables.len())
}

/// Whether there are fewer than 2^32.
fn is_small(count: usize) -> bool
    ensures { IsTrue result → count < 2 ^ 32 }
{
    u32::try_from(count).is_ok()
}

/// Whether each connector is a scalar.
pub fn are_scalar_ports(ports: &[Port]) -> bool
    ensures { IsTrue result → AllByRecursion (λ port. port.dims ≡ 0) ports.now }
{
    for port in ports {
        if port.dims != 0 {
            return false;
        }
    }
    true
}

/// Whether each link is one element.
pub fn are_scalar_links(links: &[Link]) -> bool
    ensures { IsTrue result → AllByRecursion (λ link. is_scalar link.memlet.subset.dims ≡ true) links.now }
{
    for link in links {
        if !has_one_element(link.memlet.subset.dims.as_slice()) {
            return false;
        }
    }
    true
}

/// The value of a variable, as an element; one that has none counts as 0.
pub fn element_of_variable(variable: u32, values: &Env) -> i64
    ensures { result ≡ wrapped (variable_value values.now.values variable) }
{
    match values.values.as_slice().get(variable as usize) {
        Some(value) => element_of(*value),
        None => 0,
    }
}

/// Whether a container is a stream.
pub fn is_stream(graph: &Sdfg, container: u32) -> bool
    ensures { result ≡ is_stream_kind (container_at (containers_of (graph_tree graph.now)) container).kind }
{
    match graph.containers.get_index(container as usize) {
        Some((_, container)) => matches!(
            container.kind,
            ContainerKind::Stream | ContainerKind::PrivateStream
        ),
        None => false,
    }
}
