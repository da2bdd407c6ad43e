ghost use Rattle.std.specs.Prelude.{◌≡◌, ℕ, ◌+◌, ◌<◌, ◌≤◌, ◌^◌, pos, unsigned_abs, map, length, slice_index_or, slice_set, IfOk};
ghost use Rattle.std.specs.List.{AllByRecursion};
ghost use Rattle.sd_tcode.specs.columns.Columns.{value_on, registers_of, register_count, run_count, AreWide, AreKept};

use crate::columns::filling::{gather, spread};
use crate::columns::spacing::Spaced;
use sd_list::NoMemory;
use sd_num::Cell;
use std::alloc::Global;
use std::mem;

/// The registers of many runs of one code: for each register a column of what it holds in each run.
#[derive(Drop)]
pub struct Columns {
    pub(crate) columns: Vec<Vec<i64>>,
    /// What an instruction makes, as long as a column.
    pub(crate) spare: Vec<i64>,
}

/// So many zeros.
fn zeros(alloc: Global, count: usize) -> Result<Vec<i64>, NoMemory>
    ensures { IfOk result (λ values. length values.items ≡ count) }
{
    Ok(vec![in alloc; 0i64; count]?)
}

/// So many columns of zeros.
fn zero_columns(alloc: Global, registers: usize, runs: usize) -> Result<Vec<Vec<i64>>, NoMemory>
    ensures many { IfOk result (λ columns. length columns.items ≡ registers) }
    ensures wide { IfOk result (λ columns. AllByRecursion (λ column. length column.items ≡ runs) columns.items) }
{
    let mut columns = Vec::with_capacity(alloc, registers)?;
    while columns.len() < registers {
        columns.push(zeros(alloc, runs)?)?;
    }
    Ok(columns)
}

impl Columns {
    /// Columns for so many registers and runs.
    pub fn reserve(alloc: Global, registers: usize, runs: u32) -> Result<Columns, NoMemory>
        ensures registers { IfOk result (λ columns. register_count columns ≡ registers) }
        ensures runs { IfOk result (λ columns. run_count columns ≡ runs) }
        ensures wide { IfOk result AreWide }
    {
        Ok(Columns {
            columns: zero_columns(alloc, registers, runs as usize)?,
            spare: zeros(alloc, runs as usize)?,
        })
    }

    /// How many runs there is room for.
    pub fn run_count(&self) -> usize
        ensures { result ≡ run_count self.now }
    {
        self.spare.len()
    }

    /// What was made becomes a register's column.
    #[inline(always)]
    pub(crate) fn put(&mut self, register: usize)
        requires wide { AreWide self.old }
        requires register { register < register_count self.old }
        ensures kept { AreKept self.old self.new }
        ensures put { (run : ℕ) → registers_of self.new run ≡ slice_set (registers_of self.old run) register (slice_index_or self.old.spare.items run (pos 0)) }
    {
        mem::swap(&mut self.columns[register], &mut self.spare);
    }

    /// What a register holds in a run.
    #[inline(always)]
    pub fn value(&self, register: usize, run: usize) -> i64
        requires wide { AreWide self.now }
        requires register { register < register_count self.now }
        requires run { run < run_count self.now }
        ensures { result ≡ slice_index_or (registers_of self.now run) register (pos 0) }
    {
        self.columns[register][run]
    }

    /// Gives a register numbers at equal distances, from one on.
    pub fn spread(&mut self, register: usize, numbers: &Spaced, from: u32, count: u32)
        requires wide { AreWide self.old }
        requires register { register < register_count self.old }
        requires runs { count ≤ run_count self.old }
        requires few { from + count < 2 ^ 32 }
        ensures kept { AreKept self.old self.new }
        ensures set { (run : ℕ) → run < count → registers_of self.new run ≡ slice_set (registers_of self.old run) register (value_on numbers.now (from + run)) }
    {
        spread(&mut self.spare, numbers, from, count);
        self.put(register);
    }

    /// Gives a register elements of an array at equal distances, from one on; 0 for one that is not there.
    pub fn gather<T: Cell>(
        &mut self,
        register: usize,
        cells: &[T],
        elements: &Spaced,
        from: u32,
        count: u32,
    )
        requires wide { AreWide self.old }
        requires register { register < register_count self.old }
        requires runs { count ≤ run_count self.old }
        requires few { from + count < 2 ^ 32 }
        ensures kept { AreKept self.old self.new }
        ensures set { (run : ℕ) → run < count → registers_of self.new run ≡ slice_set (registers_of self.old run) register (slice_index_or (map T.element cells.now) (unsigned_abs (value_on elements.now (from + run))) (pos 0)) }
    {
        gather(&mut self.spare, cells, elements, from, count);
        self.put(register);
    }
}
