ghost use Rattle.std.specs.Prelude.{◌≡◌, ◌≤◌, ◌+◌, ◌-◌, ◌^◌, min, length, Some, None, IsSome, is_some, IfOk};
ghost use Rattle.std.specs.List.{All};
ghost use Rattle.sd_range.specs.Range.{IsRange, IsEvaluableRange};
ghost use Rattle.sd_range.specs.Points.{tuples, ranges_of, first_values, opening, moved, narrowed};

use crate::axis::{Axis, advance, axes_of_ranges, count_of, firsts_of, part_of, renew};
use crate::env::Env;
use crate::range::{Range, copied, ranges_copied};
use crate::stage::{Stage, opening_stage};
use sd_list::NoMemory;
use std::alloc::Global;
use std::marker::Model;

/// A way through the points of a list of ranges, in lexicographic order, the last range
/// fastest.
///
/// It stands before the first point at first, and `next` leads from point to point. With no
/// range at all there is one point, which has no number. No call but `new` and
/// `of_parameters` takes memory.
#[derive(Drop)]
pub struct Points {
    ranges: Vec<Range>,
    axes: Vec<Axis>,
    at: Vec<i128>,
    stage: Stage,
}

impl Model for Points {
    ghost use Rattle.sd_range.specs.Points.{Walk};

    ghost Value = { Walk };

    ghost use Rattle.sd_range.specs.Walk.{walk_of, IsWalk};

    ghost view = { walk_of };

    ghost invariant = { IsWalk };
}

/// Stands before the first point of the ranges, which it keeps.
fn opened(alloc: Global, ranges: Vec<Range>, env: &Env) -> Result<Points, NoMemory>
    requires ranges { All IsRange ranges.items }
    requires evaluable { All (IsEvaluableRange env.now.values) ranges.items }
    ensures { IfOk result (λ p. p ≡ opening ranges.items env.now.values) }
{
    let axes = axes_of_ranges(alloc, ranges.as_slice(), env)?;
    let at = firsts_of(alloc, axes.as_slice())?;
    let stage = opening_stage(axes.as_slice());
    Ok(Points {
        ranges,
        axes,
        at,
        stage,
    })
}

impl Points {
    /// Stands before the first point of the ranges, where the variables have these values.
    pub fn new(alloc: Global, ranges: &[Range], env: &Env) -> Result<Points, NoMemory>
        requires ranges { All IsRange ranges.now }
        requires evaluable { All (IsEvaluableRange env.now.values) ranges.now }
        ensures { IfOk result (λ p. p ≡ opening ranges.now env.now.values) }
    {
        opened(alloc, copied(alloc, ranges)?, env)
    }

    /// The same for the ranges of parameters, each with the variable that takes its values.
    pub fn of_parameters(
        alloc: Global,
        parameters: &[(u32, Range)],
        env: &Env,
    ) -> Result<Points, NoMemory>
        requires ranges { All IsRange (ranges_of parameters.now) }
        requires evaluable { All (IsEvaluableRange env.now.values) (ranges_of parameters.now) }
        ensures { IfOk result (λ p. p ≡ opening (ranges_of parameters.now) env.now.values) }
    {
        opened(alloc, ranges_copied(alloc, parameters)?, env)
    }

    /// Goes to the next point; `false` where none is left.
    pub fn next(&mut self) -> bool
        ensures step { self.new ≡ moved self.old }
        ensures found { result ≡ is_some self.new.current }
    {
        match self.stage {
            Stage::Before => {
                self.stage = Stage::On;
                true
            }
            Stage::On => {
                let moved = advance(self.axes.as_slice(), self.at.as_mut_slice());
                if !moved {
                    self.stage = Stage::Over;
                }
                moved
            }
            Stage::Over => false,
        }
    }

    /// The numbers of the point that it stands at, one for each range.
    pub fn at(&self) -> &[i128]
        requires { IsSome self.now.current }
        ensures { self.now.current ≡ Some result.now }
    {
        self.at.as_slice()
    }

    /// How many values the first parameter takes; 0 where there is none. All 2^128 numbers count
    /// as one less.
    pub fn first_count(&self) -> u128
        ensures { result ≡ min (length (first_values self.now.parameters)) (2 ^ 128 - 1) }
    {
        match self.axes.first() {
            Some(axis) => count_of(axis),
            None => 0,
        }
    }

    /// Keeps the points whose first parameter is among `count` of its values, from the one of
    /// number `first` on, and stands before the first of them. No point was come to before. With
    /// no parameter the one point stays.
    pub fn piece(&mut self, first: u128, count: u128)
        requires within { first + count ≤ length (first_values self.old.parameters) }
        requires before { self.old.current ≡ None }
        requires all_left { self.old.left ≡ tuples self.old.parameters }
        ensures { self.new ≡ narrowed first count self.old }
    {
        if self.axes.is_empty() {
            return;
        }
        self.axes[0] = part_of(&self.axes[0], first, count);
        self.at[0] = self.axes[0].first;
        self.stage = opening_stage(self.axes.as_slice());
    }

    /// Stands before the first point again, now where the variables have these values. A piece
    /// is forgotten.
    pub fn restart(&mut self, env: &Env)
        requires { All (IsEvaluableRange env.now.values) self.old.ranges }
        ensures { self.new ≡ opening self.old.ranges env.now.values }
    {
        renew(
            self.ranges.as_slice(),
            env,
            self.axes.as_mut_slice(),
            self.at.as_mut_slice(),
        );
        self.stage = opening_stage(self.axes.as_slice());
    }
}
