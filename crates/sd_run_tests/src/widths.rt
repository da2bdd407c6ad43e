//! Containers of 32 bits beside those of 64. No source has one yet.
use crate::building::{argument, assignment, element, graph, map, parameter, up_to};
use crate::sure::sure;
use sd_core::run_picked;
use sd_graph::{Bound, ItemKind, Link, Memlet, Width};
use sd_list::{Sequence, Text};
use sd_mem::{Elements, Memory};
use sd_num::Resolution;
use sd_range::{Affine, Dim, Subset};
use sd_seq::RunEnd;
use std::alloc::Global;
use std::process::Abort;

/// Two arrays of two elements each, of 32 and of 64 bits, and an item.
fn narrow_and_wide(rt: &impl Abort, alloc: Global, kind: ItemKind) -> Bound {
    let arguments = sure(
        rt,
        vec![in alloc;
            argument(rt, alloc, 2, Width::W32),
            argument(rt, alloc, 2, Width::W64),
        ],
    );
    Bound {
        graph: graph(rt, alloc, arguments, kind),
    }
}

/// Whether a run by picks leaves these elements of 32 bits in the first array.
fn leaves(
    rt: &impl Abort,
    alloc: Global,
    bound: &Bound,
    given: [[i64; 2]; 2],
    picks: &[u64],
    wanted: [i32; 2],
) -> bool {
    let mut lists = Vec::new(alloc);
    for elements in given {
        sure(
            rt,
            lists.push(Sequence::from(sure(rt, elements.as_slice().to_vec(alloc)))),
        );
    }
    let memory = sure(rt, Memory::opening(alloc, bound, lists));
    match sure(rt, run_picked(alloc, bound, memory, 100, picks)) {
        RunEnd::Done { memory, .. } => match memory.cells(0) {
            Elements::W32(cells) => cells == wanted.as_slice(),
            Elements::W64(_) => false,
        },
        _ => false,
    }
}

/// `A[i] = B[i]`, resolved into `A[0]` where there is a resolution.
fn from_wide(rt: &impl Abort, alloc: Global, by: Option<Resolution>) -> Bound {
    let to = match by {
        None => element(rt, alloc, 0, parameter(rt, alloc, 0), None),
        Some(_) => element(rt, alloc, 0, Affine::constant(alloc, 0), by),
    };
    let from = element(rt, alloc, 1, parameter(rt, alloc, 0), None);
    narrow_and_wide(
        rt,
        alloc,
        map(rt, alloc, 1, false, assignment(rt, alloc, to, from)),
    )
}

const LEAST: i64 = -2147483648;

const GREATEST: i64 = 2147483647;

#[test]
fn a_stored_value_is_wrapped(rt: HostRuntime) {
    let alloc = rt.alloc();
    let bound = from_wide(&rt, alloc, None);
    for picks in [[].as_slice(), [1, 1, 1, 0].as_slice()] {
        assert!(rt;
            leaves(
                &rt,
                alloc,
                &bound,
                [[0, 0], [2147483648, -1]],
                picks,
                [i32::MIN, -1]
            )
        );
    }
    assert!(rt;
        leaves(
            &rt,
            alloc,
            &bound,
            [[0, 0], [LEAST, GREATEST]],
            &[],
            [i32::MIN, i32::MAX]
        )
    );
    assert!(rt;
        leaves(
            &rt,
            alloc,
            &bound,
            [[0, 0], [i64::MIN, i64::MAX]],
            &[],
            [0, -1]
        )
    );
}

#[test]
fn a_sum_is_wrapped_and_the_least_is_of_wrapped_values(rt: HostRuntime) {
    let alloc = rt.alloc();
    let sum = from_wide(&rt, alloc, Some(Resolution::Sum));
    let least = from_wide(&rt, alloc, Some(Resolution::Min));
    for picks in [[].as_slice(), [1, 1, 1, 0].as_slice()] {
        assert!(rt;
            leaves(
                &rt,
                alloc,
                &sum,
                [[GREATEST, 7], [1, 1]],
                picks,
                [-2147483647, 7]
            )
        );
        // Of 64 bits both values are greater than what is there.
        assert!(rt;
            leaves(
                &rt,
                alloc,
                &least,
                [[GREATEST, 7], [5000000000, 9000000000]],
                picks,
                [410065408, 7]
            )
        );
    }
}

#[test]
fn an_argument_is_opened_at_its_width(rt: HostRuntime) {
    let alloc = rt.alloc();
    let bound = from_wide(&rt, alloc, Some(Resolution::Last));
    assert!(rt;
        leaves(
            &rt,
            alloc,
            &bound,
            [[1, 4294967296 + 5], [2, 3]],
            &[],
            [3, 5]
        )
    );
}

#[test]
fn a_view_has_the_outer_width(rt: HostRuntime) {
    let alloc = rt.alloc();
    // Inside, `A[0] = B[0]` of arguments of one element of 64 bits; `A` is a view of the second element outside, of 32 bits.
    let (to, from) = (Affine::constant(alloc, 0), Affine::constant(alloc, 0));
    let kind = assignment(
        &rt,
        alloc,
        element(&rt, alloc, 0, to, None),
        element(&rt, alloc, 1, from, None),
    );
    let arguments = sure(
        &rt,
        vec![in alloc;
            argument(&rt, alloc, 1, Width::W64),
            argument(&rt, alloc, 1, Width::W64),
        ],
    );
    let inner = graph(&rt, alloc, arguments, kind);
    let links = sure(
        &rt,
        vec![in alloc; second(&rt, alloc, 0), second(&rt, alloc, 1)],
    );
    let kind = ItemKind::Nested {
        graph: sure(&rt, Box::new(alloc, inner)),
        links,
    };
    let bound = narrow_and_wide(&rt, alloc, kind);
    assert!(rt;
        leaves(
            &rt,
            alloc,
            &bound,
            [[8, 9], [0, 2147483648]],
            &[],
            [8, i32::MIN]
        )
    );
}

/// The second element of a container, as an array of one.
fn second(rt: &impl Abort, alloc: Global, container: u32) -> Link {
    let mut range = up_to(rt, alloc, 1);
    range.begin = Affine::constant(alloc, 1);
    let dims = sure(rt, vec![in alloc; Dim::Span(range)]);
    Link {
        connector: Text::from(String::new(alloc)),
        memlet: Memlet {
            container,
            subset: Subset {
                dims: Sequence::from(dims),
            },
            volume: 1,
            resolution: None,
        },
    }
}
