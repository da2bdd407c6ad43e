ghost use Rattle.std.specs.Prelude.{◌≡◌, ℕ, ◌+◌, ◌<◌, ◌≤◌, pos, List, length, map, take, slice_index_or, Some, Ok, IsTrue};
ghost use Rattle.std.specs.List.{AllByRecursion};
ghost use Rattle.sd_graph.specs.PlainTree.{TaskletTree};
ghost use Rattle.sd_graph.specs.TaskletMeaning.{meaning_of, one_value};
ghost use Rattle.sd_tcode.specs.op.Machine.{Held, after_all, after_one, passed, combined, with_result, register, state_only};
ghost use Rattle.sd_tcode.specs.op.Within.{Room, IsWithin};
ghost use Rattle.sd_tcode.specs.tcode.Compiled.{IsCodeOf, IsSafe, room_of};
ghost use Rattle.sd_tcode.specs.tcode.Outputs.{output_effects};
ghost use Rattle.sd_tcode.specs.tcode.Held.{given_by};
ghost use Rattle.sd_tcode.specs.columns.Columns.{registers_of, state_of, register_count, run_count, AreWide, AreKept};

use crate::columns::columns::Columns;
use crate::columns::filling::{change, combine, copy, repeat};
use crate::op::Op;
use crate::tcode::Code;
use sd_graph::{OneSign, TwoSign};

impl Columns {
    /// A number for a register.
    #[inline(always)]
    fn number(&mut self, to: u32, value: i64, count: usize)
        requires wide { AreWide self.old }
        requires to { to < register_count self.old }
        requires runs { count ≤ run_count self.old }
        ensures kept { AreKept self.old self.new }
        ensures done { (run : ℕ) → run < count → with_result (state_of self.old run) to (Ok value) ≡ Ok (state_of self.new run) }
    {
        repeat(&mut self.spare, value, count);
        self.put(to as usize);
    }

    /// What another register holds.
    #[inline(always)]
    fn copy(&mut self, to: u32, from: u32, count: usize)
        requires wide { AreWide self.old }
        requires to { to < register_count self.old }
        requires from { from < register_count self.old }
        requires runs { count ≤ run_count self.old }
        ensures kept { AreKept self.old self.new }
        ensures done { (run : ℕ) → run < count → with_result (state_of self.old run) to (Ok (register (state_of self.old run) from)) ≡ Ok (state_of self.new run) }
    {
        copy(&mut self.spare, &self.columns[from as usize], count);
        self.put(to as usize);
    }

    /// A sign before a register.
    #[inline(always)]
    fn change(&mut self, sign: OneSign, to: u32, of: u32, count: usize)
        requires wide { AreWide self.old }
        requires to { to < register_count self.old }
        requires of { of < register_count self.old }
        requires runs { count ≤ run_count self.old }
        ensures kept { AreKept self.old self.new }
        ensures done { (run : ℕ) → run < count → with_result (state_of self.old run) to (Ok (one_value sign (register (state_of self.old run) of))) ≡ Ok (state_of self.new run) }
    {
        change(sign, &mut self.spare, &self.columns[of as usize], count);
        self.put(to as usize);
    }

    /// A sign between two registers; `false` where one of the runs faults.
    #[inline(always)]
    fn combine(&mut self, sign: TwoSign, to: u32, left: u32, right: u32, count: usize) -> bool
        requires wide { AreWide self.old }
        requires to { to < register_count self.old }
        requires left { left < register_count self.old }
        requires right { right < register_count self.old }
        requires runs { count ≤ run_count self.old }
        ensures kept { AreKept self.old self.new }
        ensures done { IsTrue result → (run : ℕ) → run < count → combined (state_of self.old run) sign to left right ≡ Ok (state_of self.new run) }
    {
        let left = self.columns[left as usize].as_slice();
        let right = self.columns[right as usize].as_slice();
        if !combine(sign, &mut self.spare, left, right, count) {
            return false;
        }
        self.put(to as usize);
        true
    }

    /// One instruction; `false` where it is done in another way or one of the runs faults.
    fn step(&mut self, op: Op, count: usize) -> bool
        ghost room: { Room }
        requires within { IsWithin room op }
        requires registers { register_count self.old ≡ room.registers }
        requires wide { AreWide self.old }
        requires runs { count ≤ run_count self.old }
        ensures kept { AreKept self.old self.new }
        ensures done { IsTrue result → (arrays : List Held) (run : ℕ) → run < count → after_one arrays op (state_of self.old run) ≡ Ok (state_of self.new run) }
        ensures passed { IsTrue result → (run : ℕ) → passed op (state_of self.old run) ≡ 0 }
    {
        match op {
            Op::Number { to, value } => self.number(to, value, count),
            Op::Copy { to, from } => self.copy(to, from, count),
            Op::Not { to, of } => self.change(OneSign::Not, to, of, count),
            Op::Neg { to, of } => self.change(OneSign::Neg, to, of, count),
            Op::Inv { to, of } => self.change(OneSign::Inv, to, of, count),
            Op::Or { to, left, right } => return self.combine(TwoSign::Or, to, left, right, count),
            Op::And { to, left, right } => return self.combine(
                TwoSign::And,
                to,
                left,
                right,
                count,
            ),
            Op::Less { to, left, right } => {
                return self.combine(TwoSign::Less, to, left, right, count);
            }
            Op::LessEqual { to, left, right } => {
                return self.combine(TwoSign::LessEqual, to, left, right, count);
            }
            Op::Greater { to, left, right } => {
                return self.combine(TwoSign::Greater, to, left, right, count);
            }
            Op::GreaterEqual { to, left, right } => {
                return self.combine(TwoSign::GreaterEqual, to, left, right, count);
            }
            Op::Equal { to, left, right } => {
                return self.combine(TwoSign::Equal, to, left, right, count);
            }
            Op::Differ { to, left, right } => {
                return self.combine(TwoSign::Differ, to, left, right, count);
            }
            Op::BitOr { to, left, right } => {
                return self.combine(TwoSign::BitOr, to, left, right, count);
            }
            Op::BitXor { to, left, right } => {
                return self.combine(TwoSign::BitXor, to, left, right, count);
            }
            Op::BitAnd { to, left, right } => {
                return self.combine(TwoSign::BitAnd, to, left, right, count);
            }
            Op::Add { to, left, right } => return self.combine(
                TwoSign::Add,
                to,
                left,
                right,
                count,
            ),
            Op::Sub { to, left, right } => return self.combine(
                TwoSign::Sub,
                to,
                left,
                right,
                count,
            ),
            Op::Mul { to, left, right } => return self.combine(
                TwoSign::Mul,
                to,
                left,
                right,
                count,
            ),
            Op::FloorDiv { to, left, right } => {
                return self.combine(TwoSign::FloorDiv, to, left, right, count);
            }
            Op::Mod { to, left, right } => return self.combine(
                TwoSign::Mod,
                to,
                left,
                right,
                count,
            ),
            Op::Min { to, left, right } => return self.combine(
                TwoSign::Min,
                to,
                left,
                right,
                count,
            ),
            Op::Max { to, left, right } => return self.combine(
                TwoSign::Max,
                to,
                left,
                right,
                count,
            ),
            _ => return false,
        }
        true
    }

    /// The instructions one after another; `false` where one of them is done in another way or one of the runs faults.
    fn steps(&mut self, code: &Code, count: usize) -> bool
        ghost room: { Room }
        requires room { room ≡ room_of code.now }
        requires registers { register_count self.old ≡ code.now.registers }
        requires wide { AreWide self.old }
        requires runs { count ≤ run_count self.old }
        ensures kept { AreKept self.old self.new }
        ensures done { IsTrue result → (arrays : List Held) (run : ℕ) → run < count → state_only (after_all arrays 0 code.now.ops (state_of self.old run)) ≡ Ok (state_of self.new run) }
        ensures safe { IsSafe code.now }
    {
        let ops = code.ops();
        for op in ops {
            if !self.step(*op, count) {
                return false;
            }
        }
        true
    }

    /// Plain code, for so many runs at once: in each run its outputs stand in their registers. `false` where the code jumps or
    /// one of the runs faults, and then the registers hold anything. Takes no memory.
    pub fn run(&mut self, code: &Code, count: u32) -> bool
        requires registers { register_count self.old ≡ code.now.registers }
        requires wide { AreWide self.old }
        requires runs { count ≤ run_count self.old }
        ensures kept { AreKept self.old self.new }
        ensures meaning { IsTrue result → (tree : TaskletTree) (order : List ℕ) (arrays : List Held) (run : ℕ) → IsCodeOf tree code.now → code.now.plain ≡ Some order
            → map (λ array. length array.extents) arrays ≡ code.now.dims → run < count
            → meaning_of tree (given_by code.now.layout.inputs (take (code.now.layout.inputs + code.now.layout.variables) (registers_of self.old run)) arrays)
            ≡ Ok (output_effects (λ connector. slice_index_or (registers_of self.new run) (code.now.layout.variables + connector) (pos 0)) order) }
    {
        self.steps(code, count as usize)
    }
}
