ghost use Rattle.std.specs.Prelude.{◌≡◌, ℕ, suc, ◌+◌, nat_eq, List, ◌∷◌, ◌++◌, map, None, Some, option_map, if◌then◌else◌, slice_index_or, IfOk, OnOk};
ghost use Rattle.sd_range.specs.Variables.{with_variable, with_variables};
ghost use Rattle.sd_graph.specs.PlainTree.{GraphTree};
ghost use Rattle.sd_graph.specs.TreeParts.{containers_of};
ghost use Rattle.sd_graph.specs.Unfold.{at_point, at_element, assigned};
ghost use Rattle.sd_mem.specs.machine.Coming.{state_context};
ghost use Rattle.sd_scope.specs.scope.Standing.{context_of, opening_reach, private_inside, parameter_shown, IsInside};
ghost use Rattle.sd_scope.specs.declared.scope.base.Base.{Base as BaseNow};

use sd_list::{NoMemory, Sequence};
use sd_range::{Env, Range};
use std::alloc::Global;
use std::mem::replace;

/// What the place of a fault shows a value for.
#[derive(Clone, Copy, Debug, PartialEq, Eq)]
pub enum ShownName {
    /// A parameter, by its variable's number.
    Parameter(u32),
    /// The element of a consume scope, by its container's number.
    Element(u32),
}

/// One value that the place of a fault shows.
#[derive(Clone, Copy, Debug, PartialEq, Eq)]
pub struct Shown {
    pub name: ShownName,
    pub value: i128,
}

/// Where work stands in a run of a graph.
#[derive(Drop)]
pub struct Scope {
    /// The state, and the values of the variables at its begin, by which loop variables are shown.
    pub state: u32,
    pub begun: Sequence<i128>,
    /// The values of the variables here.
    pub values: Env,
    /// What is shown behind the loop variables.
    pub shown: Sequence<Shown>,
    /// How many points and elements are round the work, inside the run.
    pub depth: usize,
    /// By the numbers of the containers: one that is private here has how many points and elements lie inside its own one. The
    /// others, and those behind the end of the list, are none.
    pub privates: Sequence<Option<usize>>,
}

impl Scope {
    /// In a state of a run, at its begin.
    pub fn at_state(alloc: Global, state: u32, values: &[i128]) -> Result<Scope, NoMemory>
        ensures { IfOk result (λ scope. (tree : GraphTree) (base : BaseNow) → context_of tree base scope ≡ state_context tree (opening_reach (containers_of tree) base) base.around state values.now) }
    {
        let begun = values.to_vec(alloc)?;
        let here = values.to_vec(alloc)?;
        Ok(Scope {
            state,
            begun: Sequence::from(begun),
            values: Env {
                values: Sequence::from(here),
            },
            shown: Sequence::new(alloc),
            depth: 0,
            privates: Sequence::new(alloc),
        })
    }

    /// Inside a point or an element of a scope that stands here, where nothing is set or shown yet.
    pub fn inside(&self, alloc: Global, private: &[u32]) -> Result<Scope, NoMemory>
        ensures { IfOk result (IsInside private.now self.now) }
    {
        let begun = self.begun.as_slice().to_vec(alloc)?;
        let shown = self.shown.as_slice().to_vec(alloc)?;
        let privates = privates_inside(alloc, self.privates.as_slice(), private)?;
        Ok(Scope {
            state: self.state,
            begun: Sequence::from(begun),
            values: self.values.copy_of(alloc)?,
            shown: Sequence::from(shown),
            depth: one_more(self.depth)?,
            privates: Sequence::from(privates),
        })
    }

    /// Goes to a point of a map that stands in `outer`.
    pub fn at_point(
        &mut self,
        alloc: Global,
        outer: &Scope,
        params: &[(u32, Range)],
        point: &[i128],
    ) -> Result<(), NoMemory>
        ensures inside { (private : List ℕ) → IsInside private outer.now self.old → OnOk result (IsInside private outer.now self.new) }
        ensures context { (tree : GraphTree) (base : BaseNow) (private : List ℕ) → IsInside private outer.now self.old → OnOk result (context_of tree base self.new ≡ at_point (context_of tree base outer.now) params.now private point.now) }
    {
        let mut values = refilled(
            alloc,
            &mut self.values.values,
            outer.values.values.as_slice(),
        )?;
        let mut shown = refilled(alloc, &mut self.shown, outer.shown.as_slice())?;
        assign(&mut values, &mut shown, params, point)?;
        self.values.values = Sequence::from(values);
        self.shown = Sequence::from(shown);
        Ok(())
    }

    /// Goes to an element of a consume scope that stands in `outer`: the value that was taken.
    pub fn at_element(
        &mut self,
        alloc: Global,
        outer: &Scope,
        element: u32,
        value: i64,
    ) -> Result<(), NoMemory>
        ensures inside { (private : List ℕ) → IsInside private outer.now self.old → OnOk result (IsInside private outer.now self.new) }
        ensures context { (tree : GraphTree) (base : BaseNow) (private : List ℕ) → IsInside (element ∷ private) outer.now self.old → OnOk result (context_of tree base self.new ≡ at_element (context_of tree base outer.now) element private value) }
    {
        let mut values = refilled(
            alloc,
            &mut self.values.values,
            outer.values.values.as_slice(),
        )?;
        let mut shown = refilled(alloc, &mut self.shown, outer.shown.as_slice())?;
        shown.push(Shown {
            name: ShownName::Element(element),
            value: i128::from(value),
        })?;
        self.values.values = Sequence::from(values);
        self.shown = Sequence::from(shown);
        Ok(())
    }
}

/// The list taken out, with these items in the place of its own; its room is kept.
fn refilled<T: Copy + Drop>(
    alloc: Global,
    list: &mut Sequence<T>,
    items: &[T],
) -> Result<Vec<T>, NoMemory>
    ensures { IfOk result (λ filled. filled.items ≡ items.now) }
{
    let mut filled = replace(list, Sequence::new(alloc)).into_vec();
    filled.clear();
    filled.extend_from_slice(items)?;
    Ok(filled)
}

/// Sets the parameters of a map, and shows them.
fn assign(
    values: &mut Vec<i128>,
    shown: &mut Vec<Shown>,
    params: &[(u32, Range)],
    point: &[i128],
) -> Result<(), NoMemory>
    ensures values { OnOk result (values.new.items ≡ with_variables (assigned params.now point.now) values.old.items) }
    ensures shown { OnOk result (shown.new.items ≡ shown.old.items ++ map parameter_shown (assigned params.now point.now)) }
{
    for i in 0..params.len().min(point.len()) {
        let variable = params[i].0;
        set_variable(values, variable, point[i])?;
        shown.push(Shown {
            name: ShownName::Parameter(variable),
            value: point[i],
        })?;
    }
    Ok(())
}

/// Sets a variable; where there are fewer values, those between are 0.
pub(crate) fn set_variable(
    values: &mut Vec<i128>,
    variable: u32,
    value: i128,
) -> Result<(), NoMemory>
    ensures { OnOk result (values.new.items ≡ with_variable variable value values.old.items) }
{
    let index = variable as usize;
    if index >= values.len() {
        values.resize(index + 1, 0)?;
    }
    values[index] = value;
    Ok(())
}

/// One point or element more.
pub(crate) fn one_more(depth: usize) -> Result<usize, NoMemory>
    ensures { IfOk result (λ more. more ≡ depth + 1) }
{
    depth.checked_add(1).ok_or(NoMemory)
}

/// How many points and elements lie inside the own one of each container that is private, from inside one more.
fn privates_inside(
    alloc: Global,
    outer: &[Option<usize>],
    private: &[u32],
) -> Result<Vec<Option<usize>>, NoMemory>
    ensures { IfOk result (λ inner. (number : ℕ) → slice_index_or inner.items number None ≡ private_inside private.now outer.now number) }
{
    let mut inner = raised_privates(alloc, outer)?;
    for number in private {
        make_private(&mut inner, *number)?;
    }
    Ok(inner)
}

/// The same from inside one more, without private containers of its own.
fn raised_privates(alloc: Global, outer: &[Option<usize>]) -> Result<Vec<Option<usize>>, NoMemory>
    ensures { IfOk result (λ inner. inner.items ≡ map (option_map suc) outer.now) }
{
    let mut inner = Vec::with_capacity(alloc, outer.len())?;
    for level in outer {
        match level {
            None => inner.push(None)?,
            Some(level) => inner.push(Some(one_more(*level)?))?,
        }
    }
    Ok(inner)
}

/// A container is private to the innermost point or element.
fn make_private(privates: &mut Vec<Option<usize>>, number: u32) -> Result<(), NoMemory>
    ensures { OnOk result ((other : ℕ) → slice_index_or privates.new.items other None ≡ (if nat_eq other number then Some 0 else slice_index_or privates.old.items other None)) }
{
    let index = number as usize;
    if index >= privates.len() {
        privates.resize(index + 1, None)?;
    }
    privates[index] = Some(0);
    Ok(())
}
