//! A map and the one map that is its body.
ghost use Rattle.std.specs.Prelude.{◌≡◌, option_map};
ghost use Rattle.sd_graph.specs.TreeFold.{kind_tree};
ghost use Rattle.sd_mapx.specs.Parts as definition;

use sd_graph::{Item, ItemKind};
use sd_range::Range;

/// A map without private containers, and the one map that is its body.
#[derive(Clone, Copy)]
pub(crate) struct Pair<'a> {
    pub(crate) outer_sequential: bool,
    pub(crate) outer: &'a [(u32, Range)],
    /// The line of the inner map.
    pub(crate) line: u32,
    pub(crate) inner_sequential: bool,
    pub(crate) inner: &'a [(u32, Range)],
    pub(crate) private: &'a [u32],
    pub(crate) body: &'a [Item],
}

/// Those of an item, if it is such a map.
pub(crate) fn pair_in(kind: &ItemKind) -> Option<Pair<'_>>
    ensures { option_map definition.pair_tree result ≡ definition.pair_in (kind_tree kind.now) }
{
    let ItemKind::Map {
        params: outer,
        private: own,
        body: alone,
        sequential: outer_sequential,
    } = kind
    else {
        return None;
    };
    if !own.as_slice().is_empty() {
        return None;
    }
    let Some((item, others)) = alone.split_first() else {
        return None;
    };
    if !others.is_empty() {
        return None;
    }
    let ItemKind::Map {
        params: inner,
        private,
        body,
        sequential: inner_sequential,
    } = &item.kind
    else {
        return None;
    };
    Some(Pair {
        outer_sequential: *outer_sequential,
        outer,
        line: item.line,
        inner_sequential: *inner_sequential,
        inner,
        private,
        body,
    })
}
