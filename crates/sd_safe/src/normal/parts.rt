//! Parts of graphs without items: that they are in normal form is shown by looking at their terms.
ghost use Rattle.std.specs.Prelude.{map, option_map};
ghost use Rattle.std.specs.List.{AllByRecursion};
ghost use Rattle.sd_graph.specs.TreeFold.{exit_tree, guard_tree, named_container};
ghost use Rattle.sd_safe.specs.normal.NormalForm.{IsAffineNormal, AreAffinesNormal, IsRangeNormal, IsDimNormal, IsLinkNormal, AreLinksNormal, AreParamsNormal, IsConditionNormal, IsExitNormal, AreContainersNormal};

use indexmap::IndexMap;
use sd_graph::{Container, Exit, Guard, Link};
use sd_range::{Affine, Dim, Range};

fn show_affine(a: &Affine)
    ensures { IsAffineNormal a.now }
{
    a.terms.as_slice();
}

fn show_affines(all: &[Affine])
    ensures { AreAffinesNormal all.now }
{
    for a in all {
        show_affine(a);
    }
}

fn show_range(range: &Range)
    ensures { IsRangeNormal range.now }
{
    show_affine(&range.begin);
    show_affines(range.ends.as_slice());
}

fn show_dim(dim: &Dim)
    ensures { IsDimNormal dim.now }
{
    match dim {
        Dim::Index(at) => show_affine(at),
        Dim::Span(range) => show_range(range),
    }
}

fn show_dims(dims: &[Dim])
    ensures { AllByRecursion IsDimNormal dims.now }
{
    for dim in dims {
        show_dim(dim);
    }
}

pub(crate) fn show_link(link: &Link)
    ensures { IsLinkNormal link.now }
{
    show_dims(link.memlet.subset.dims.as_slice());
}

pub(crate) fn show_links(links: &[Link])
    ensures { AreLinksNormal links.now }
{
    for link in links {
        show_link(link);
    }
}

pub(crate) fn show_params(params: &[(u32, Range)])
    ensures { AreParamsNormal params.now }
{
    for (_, range) in params {
        show_range(range);
    }
}

fn show_condition(when: &Option<Guard>)
    ensures { IsConditionNormal (option_map guard_tree when.now) }
{
    if let Some(guard) = when {
        show_links(guard.reads.as_slice());
    }
}

fn show_assignments(set: &[(u32, Affine)])
    ensures { AllByRecursion (λ assignment. IsAffineNormal assignment.1) set.now }
{
    for (_, value) in set {
        show_affine(value);
    }
}

fn show_exit(exit: &Exit)
    ensures { IsExitNormal (exit_tree exit.now) }
{
    show_condition(&exit.when);
    show_assignments(exit.set.as_slice());
}

pub(crate) fn show_exits(exits: &[Exit])
    ensures { AllByRecursion IsExitNormal (map exit_tree exits.now) }
{
    for exit in exits {
        show_exit(exit);
    }
}

pub(crate) fn show_containers(containers: &IndexMap<String, Container>)
    ensures { AreContainersNormal (map named_container containers.now.entries) }
{
    for (_, container) in containers.iter() {
        show_affines(container.extents.as_slice());
    }
}
