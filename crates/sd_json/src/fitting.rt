ghost use Rattle.std.specs.Prelude.{◌≡◌, map, nat_eq, option_map, string_bytes, unsigned_abs};
ghost use Rattle.std.specs.List.{starts_with};
ghost use Rattle.sd_graph.specs.ContainerParts.{extents_of};
ghost use Rattle.sd_graph.specs.TreeFold.{named_container};
ghost use Rattle.sd_json.specs.GivenMemory as definition;

use crate::array::Array;
use indexmap::IndexMap;
use sd_graph::Container;
use sd_range::Affine;

/// The value of an extent of a bound graph, which is a constant.
pub(crate) fn extent_value(extent: &Affine) -> u128
    ensures { result ≡ unsigned_abs extent.now.constant }
{
    extent.constant.unsigned_abs()
}

/// Whether the numbers of a shape are those of the first extents.
fn begins_with(extents: &[Affine], shape: &[u64]) -> bool
    ensures { result ≡ starts_with nat_eq (map (λ extent. unsigned_abs extent.constant) extents.now) shape.now }
{
    if shape.len() > extents.len() {
        return false;
    }
    for at in 0..shape.len() {
        if u128::from(shape[at]) != extent_value(&extents[at]) {
            return false;
        }
    }
    true
}

/// Whether the last number of a shape is 0.
fn has_zero_end(shape: &[u64]) -> bool
    ensures { result ≡ definition.ends_in_zero shape.now }
{
    match shape.last() {
        Some(last) => *last == 0,
        None => false,
    }
}

/// Whether a shape fits the extents of a container, which are constants.
pub(crate) fn fits(shape: &[u64], container: &Container) -> bool
    ensures { result ≡ definition.fits shape.now (extents_of container.now) }
{
    let extents = container.extents.as_slice();
    begins_with(extents, shape) && (shape.len() == extents.len() || has_zero_end(shape))
}

/// The name of the first container whose extents the shape of its array does not fit.
pub(crate) fn wrong_shape<'c>(
    containers: &'c IndexMap<String, Container>,
    arrays: &[Array],
) -> Option<&'c String>
    ensures { option_map (λ name. string_bytes name.now) result ≡ definition.wrong_shape (map named_container containers.now.entries) arrays.now }
{
    for at in 0..arrays.len() {
        let Some((name, container)) = containers.get_index(at) else {
            return None;
        };
        if !fits(arrays[at].shape.as_slice(), container) {
            return Some(name);
        }
    }
    None
}
