//! Marks of elements and streams of a cut: which work may use, and how. Nothing changes where there is no such element or stream.
ghost use Rattle.std.specs.Prelude.{◌≡◌, None, slice_index_or, OnOk, OnErr};
ghost use Rattle.sd_work.specs.Change.{changed_at};
ghost use Rattle.sd_work.specs.Memory.{waiting};
ghost use Rattle.sd_mem.specs.mem.Shaped.{alone};
ghost use Rattle.sd_cut.specs.Elements.{cut_at, marked};
ghost use Rattle.sd_cut.specs.Using as using;
ghost use Rattle.sd_cut.specs.Using.{appended_at, drained_at, gathered_at, kept_at, with_element};

use crate::elements::{CutElement, ElementMark};
use crate::overlay::Overlay;
use crate::streams::{CutStream, StreamUse, append_cut, drain_cut, move_cut};
use crate::turning::{ElementLeft, gathered, kept};
use sd_list::{NoMemory, Sequence};
use sd_mem::Memory;
use sd_num::Resolution;

impl Overlay {
    /// Work may read or replace the element of this number in a container's window. What it sees is left of it.
    pub fn keep(&mut self, container: u32, number: u64)
        ensures { self.new ≡ kept_at container number self.old }
    {
        if let Some(cut) = self.element(container, number) {
            let width = self.left.width(container);
            let new = kept(width, cut, self.left.cell(container, number));
            self.put(container, number, new);
        }
    }

    /// Work may resolve values with the element by this resolution alone: what is gathered begins at its identity. An element that is gathered
    /// by another one, or where there is no identity, is kept.
    pub fn gather(&mut self, container: u32, number: u64, by: Resolution)
        ensures { self.new ≡ gathered_at container number by self.old }
    {
        if let Some(cut) = self.element(container, number) {
            let width = self.left.width(container);
            let new = gathered(by, width, cut, self.left.cell(container, number));
            self.put(container, number, new);
        }
    }

    /// Work may take from a stream: what it sees of it is left. For want of memory nothing changes.
    pub fn drain(&mut self, container: u32) -> Result<(), NoMemory>
        ensures ok { OnOk result (self.new ≡ drained_at container self.old) }
        ensures err { OnErr result (self.new ≡ self.old) }
    {
        let alloc = *self.windows.allocator();
        move_cut(alloc, self.streams.as_slice(), &mut self.left, container)?;
        drain_cut(self.streams.as_mut_slice(), container);
        Ok(())
    }

    /// Work may push to a stream and not take from it. Where a value was taken or pushed before, the stream is drained.
    pub fn append(&mut self, container: u32) -> Result<(), NoMemory>
        ensures ok { OnOk result (self.new ≡ appended_at container self.old) }
        ensures err { OnErr result (self.new ≡ self.old) }
    {
        if is_begun(self.streams.as_slice(), &self.left, container) {
            return self.drain(container);
        }
        append_cut(self.streams.as_mut_slice(), container);
        Ok(())
    }

    /// The element of a number in a container's window.
    pub(crate) fn element(&self, container: u32, number: u64) -> Option<CutElement>
        ensures { result ≡ cut_at self.now.arrays container number }
    {
        let cuts = self.arrays.get(container as usize)?;
        cuts.as_slice().get(number as usize).copied()
    }

    /// Gives an element a mark, and leaves something else of it.
    pub(crate) fn put(&mut self, container: u32, number: u64, new: ElementLeft)
        ensures { self.new ≡ with_element container number new self.old }
    {
        mark_at(self.arrays.as_mut_slice(), container, number, new.mark);
        self.left.set(container, number, None, new.value);
    }
}

/// Whether a value was taken from a stream that was cut, or pushed to it.
fn is_begun(streams: &[Option<CutStream>], left: &Memory, container: u32) -> bool
    ensures { result ≡ using.is_begun (slice_index_or streams.now container None) (waiting 0 container (alone left.now)) }
{
    match streams.get(container as usize) {
        Some(Some(stream)) => match stream.usage {
            StreamUse::Drained => true,
            StreamUse::Unused | StreamUse::Appended => left.waiting(container) != 0,
        },
        _ => false,
    }
}

/// The same element with another mark.
fn with_mark(cut: CutElement, mark: ElementMark) -> CutElement
    ensures { result ≡ marked mark cut }
{
    CutElement { mark, ..cut }
}

/// Marks the element of a number in a container, if there is one.
fn mark_at(arrays: &mut [Sequence<CutElement>], container: u32, number: u64, mark: ElementMark)
    ensures { arrays.new ≡ changed_at container (changed_at number (marked mark)) arrays.old }
{
    if (container as usize) < arrays.len() {
        mark_one(&mut arrays[container as usize], number, mark);
    }
}

/// Marks the element of a number, if there is one.
fn mark_one(cuts: &mut Sequence<CutElement>, number: u64, mark: ElementMark)
    ensures { cuts.new ≡ changed_at number (marked mark) cuts.old }
{
    if (number as usize) < cuts.len() {
        let cut = cuts.as_slice()[number as usize];
        cuts.set(number as usize, with_mark(cut, mark));
    }
}
