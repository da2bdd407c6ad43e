//! Indices inside containers and subsets of subsets.
use crate::sure::sure;
use sd_list::{NoMemory, Sequence};
use sd_range::{Affine, Dim, Subset};
use sd_subset::{compose, contains};
use std::alloc::Global;

#[test]
fn an_index_has_as_many_numbers_as_the_container(rt: HostRuntime) {
    assert!(rt; contains(&[3, 4], &[2, 3]));
    assert!(rt; contains(&[], &[]));
    assert!(rt; !contains(&[3, 4], &[i128::MAX, i128::MIN]));
    assert!(rt; !contains(&[3, 4], &[0]));
    assert!(rt; !contains(&[0], &[0]));
}

/// Whether the index 0 of an index is that index.
fn is_composed(alloc: Global) -> Result<bool, NoMemory> {
    let dims = Sequence::from(vec![in alloc; Dim::Index(Affine::constant(alloc, 7))]?);
    let outer = Subset { dims };
    let dims = Sequence::from(vec![in alloc; Dim::Index(Affine::constant(alloc, 0))]?);
    Ok(compose(alloc, &outer, &Subset { dims })?.same(&outer))
}

#[test]
fn an_index_of_an_index_is_it(rt: HostRuntime) {
    assert!(rt; sure(&rt, is_composed(rt.alloc())));
}
