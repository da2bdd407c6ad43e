//! Uses of a cut one by one. Each marks just what it reads, and each stream that it takes from. A write by a second resolution counts as a read.
ghost use Rattle.std.specs.Prelude.{◌≡◌, ◌↔◌, slice_get, IsSome, IsTrue, OnOk, OnErr};
ghost use Rattle.sd_cut.specs.Placing.{number_in};
ghost use Rattle.sd_cut.specs.Using.{kept_at, pushed_in, read_in, seen_at, seen_in, taken_in, values_seen, written_in, written_to};
ghost use Rattle.sd_cut.specs.Windowed.{window_at};

use crate::overlay::Overlay;
use crate::placing::number_of;
use crate::streams::{append_cut, take_cut};
use crate::turning::{kept, written};
use sd_list::NoMemory;
use sd_num::Resolution;

impl Overlay {
    /// The number of an element in its container's window; `None` exactly where the index is outside of it.
    pub fn place(&self, container: u32, index: &[i128]) -> Option<u64>
        ensures { result ≡ number_in (window_at self.now.windows container) index.now }
    {
        match self.windows.get(container as usize) {
            Some(Some(window)) => number_of(window, index),
            _ => None,
        }
    }

    /// The element of a number in a container's window, as work sees it, which is then kept; 0 where there is none.
    pub fn cell(&mut self, container: u32, number: u64) -> i64
        ensures value { result ≡ seen_at container number self.old }
        ensures kept { self.new ≡ kept_at container number self.old }
    {
        match self.element(container, number) {
            Some(cut) => {
                let width = self.left.width(container);
                let new = kept(width, cut, self.left.cell(container, number));
                self.put(container, number, new);
                new.value
            }
            None => 0,
        }
    }

    /// Writes a value to an element: it replaces what work sees there, or is resolved with it. Nothing changes where there is no such element.
    pub fn set(&mut self, container: u32, number: u64, by: Option<Resolution>, value: i64)
        ensures { self.new ≡ written_in container number by value self.old }
    {
        if let Some(cut) = self.element(container, number) {
            let width = self.left.width(container);
            let left = self.left.cell(container, number);
            self.put(container, number, written(by, value, width, cut, left));
        }
    }

    /// The element at an index, as `cell` gives it; `None` exactly where that is outside of the window, and then nothing changes.
    pub fn read(&mut self, container: u32, index: &[i128]) -> Option<i64>
        ensures value { result ≡ seen_in container (number_in (window_at self.old.windows container) index.now) self.old }
        ensures kept { self.new ≡ read_in container (number_in (window_at self.old.windows container) index.now) self.old }
    {
        let number = self.place(container, index)?;
        Some(self.cell(container, number))
    }

    /// Writes a value to the element at an index, as `set` does; `false` exactly where that is outside of the window, and then nothing changes.
    pub fn write(
        &mut self,
        container: u32,
        index: &[i128],
        by: Option<Resolution>,
        value: i64,
    ) -> bool
        ensures inside { IsTrue result ↔ IsSome (number_in (window_at self.old.windows container) index.now) }
        ensures written { self.new ≡ written_to container (number_in (window_at self.old.windows container) index.now) by value self.old }
    {
        match self.place(container, index) {
            Some(number) => {
                self.set(container, number, by, value);
                true
            }
            None => false,
        }
    }

    /// Appends a value to a stream; for want of memory nothing changes. Nothing changes where no such stream was cut.
    pub fn push(&mut self, container: u32, value: i64) -> Result<(), NoMemory>
        ensures ok { OnOk result (self.new ≡ pushed_in container value self.old) }
        ensures err { OnErr result (self.new ≡ self.old) }
    {
        self.left.push(container, value)?;
        append_cut(self.streams.as_mut_slice(), container);
        Ok(())
    }

    /// Takes the oldest value of a stream, as work sees it; `None` exactly where there is none.
    pub fn take(&mut self, container: u32) -> Option<i64>
        ensures oldest { result ≡ slice_get (values_seen container self.old) 0 }
        ensures taken { self.new ≡ taken_in container self.old }
    {
        match take_cut(self.streams.as_mut_slice(), container) {
            Some(value) => Some(value),
            None => self.left.take(container),
        }
    }
}
