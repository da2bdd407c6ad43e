ghost use Rattle.std.specs.Prelude.{◌≡◌, Some, [], IfOk, OnOk};
ghost use Rattle.sd_json.specs.Walk.{no_rows, have_one_shape, rows_with, rows_counted, shape_of_rows};

use sd_list::{NoMemory, Sequence};
use std::alloc::Global;
use std::marker::Model;

/// The items of a list that were read. Leaves, of which there may be many, are counted apart from
/// the others, which have this shape, where they have one.
#[derive(Drop)]
pub(crate) struct Rows {
    leaves: u64,
    others: u64,
    shape: Option<Sequence<u64>>,
}

impl Model for Rows {
    ghost use Rattle.sd_json.specs.Walk.{RowsRead, rows_counted};

    ghost Value = { RowsRead };

    ghost view = { λ rows. rows_counted rows.leaves rows.others rows.shape };
}

/// Whether both are there and the same.
#[inline(always)]
fn are_one(first: &Option<Sequence<u64>>, second: &Option<Sequence<u64>>) -> bool
    ensures { result ≡ have_one_shape first.now second.now }
{
    match (first, second) {
        (Some(first), Some(second)) => second.as_slice() == first.as_slice(),
        _ => false,
    }
}

/// Whether it is the shape of a leaf.
#[inline(always)]
fn is_leaf(shape: &Option<Sequence<u64>>) -> bool
    ensures { result ≡ have_one_shape shape.now (Some []) }
{
    match shape {
        Some(shape) => shape.is_empty(),
        None => false,
    }
}

/// The shape of leaves and of others, which have this one, where they have one.
fn common_shape(
    alloc: Global,
    leaves: u64,
    others: u64,
    shape: Option<Sequence<u64>>,
) -> Option<Sequence<u64>>
    ensures { result ≡ (rows_counted leaves others shape).shape }
{
    if leaves == 0 {
        return shape;
    }
    if others == 0 {
        return Some(Sequence::new(alloc));
    }
    if is_leaf(&shape) { shape } else { None }
}

impl Rows {
    /// No item yet.
    pub(crate) fn new() -> Rows
        ensures { result ≡ no_rows }
    {
        Rows {
            leaves: 0,
            others: 0,
            shape: None,
        }
    }

    /// One item more, which is a leaf.
    #[inline(always)]
    pub(crate) fn add_leaf(&mut self) -> Result<(), NoMemory>
        ensures { OnOk result (self.new ≡ rows_with self.old (Some [])) }
    {
        self.leaves = self.leaves.checked_add(1).ok_or(NoMemory)?;
        Ok(())
    }

    /// One item more, with its shape.
    #[inline(always)]
    pub(crate) fn add(&mut self, shape: Option<Sequence<u64>>) -> Result<(), NoMemory>
        ensures { OnOk result (self.new ≡ rows_with self.old shape) }
    {
        let others = self.others.checked_add(1).ok_or(NoMemory)?;
        if self.others == 0 {
            self.shape = shape;
        } else if !are_one(&self.shape, &shape) {
            self.shape = None;
        }
        self.others = others;
        Ok(())
    }

    /// The shape of the list of these items.
    pub(crate) fn into_shape(self, alloc: Global) -> Result<Option<Sequence<u64>>, NoMemory>
        ensures { IfOk result (λ shape. shape ≡ shape_of_rows self) }
    {
        let Rows {
            leaves,
            others,
            shape,
        } = self;
        let count = leaves.checked_add(others).ok_or(NoMemory)?;
        if count == 0 {
            return Ok(Some(Sequence::from(vec![in alloc; 0]?)));
        }
        let Some(shape) = common_shape(alloc, leaves, others, shape) else {
            return Ok(None);
        };
        let mut shape = shape.into_vec();
        shape.insert(0, count)?;
        Ok(Some(Sequence::from(shape)))
    }
}
