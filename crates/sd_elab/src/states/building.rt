ghost use Rattle.std.specs.Prelude.{◌≡◌, [], ◌∷◌, map, option_map, false, IfOk, OnOk};
ghost use Rattle.sd_graph.specs.PlainTree.{no_item};
ghost use Rattle.sd_graph.specs.TreeFold.{exit_tree, guard_tree};
ghost use Rattle.sd_lex.specs.TreeFold.{block_of, expression_of, statement_of};
ghost use Rattle.sd_program.specs.Bounds.{EachBound, EachSubscript, IfWritten};
ghost use Rattle.sd_program.specs.Every.{Every};
ghost use Rattle.sd_program.specs.Small.{IsSmall};
ghost use Rattle.sd_range.specs.Arithmetic.{affine_zero};
ghost use Rattle.sd_elab.specs.items.Graphs.{graph_named};
ghost use Rattle.sd_elab.specs.items.GraphsByNumber.{graphs_of};
ghost use Rattle.sd_elab.specs.items.Items.{items_with};
ghost use Rattle.sd_task.specs.task.ElementCode.{guard_of, below};
ghost use Rattle.sd_task.specs.in_force.Ranges.{affine_or};
ghost use Rattle.sd_elab.specs.states.BuildingOf.{threaded_of, standing_of, HasSmallContainers, argument_passed, declared, item_behind, leaf_behind, without_loop_variable};
ghost use Rattle.sd_elab.specs.states.Exits as exits;
ghost use Rattle.sd_elab.specs.states.Standing.{state_behind, with_loop_variable};
ghost use Rattle.sd_elab.specs.states.Threaded.{closed, holding, to_block, loop_begun, in_loop, join_of, in_else, else_begun, leaf_threaded};

use crate::items::{Graphs, Numbers, push_item};
use crate::states::count::states_in_all;
use crate::states::exit::{back_to, if_holds, plainly, setting, step_back};
use sd_graph::{Exit, Guard, Item, State};
use sd_lex::{Expr, Statement};
use sd_list::NoMemory;
use sd_task::{Names, affine_or, guard, guard_below, more, number};
use std::alloc::Global;

/// A `for` loop that has begun: the number of its first state, and that of its variable.
#[derive(Clone, Copy)]
pub(crate) struct Loop {
    pub(crate) header: u32,
    pub(crate) variable: u32,
}

/// The states that are finished, and the items of the current one.
///
/// `state` and `numbers` are the numbers that come next.
#[derive(Drop)]
pub struct Building {
    pub finished: Vec<State>,
    pub items: Vec<Item>,
    pub state: u32,
    pub numbers: Numbers,
    pub names: Names,
}

impl Building {
    /// The current state has these exits; the next one has no item.
    pub fn close(&mut self, alloc: Global, exits: Vec<Exit>) -> Result<(), NoMemory>
        ensures threaded { OnOk result (threaded_of self.new ≡ closed (threaded_of self.old) (map exit_tree exits.items)) }
        ensures standing { OnOk result (standing_of self.new ≡ state_behind (standing_of self.old)) }
    {
        let items = std::mem::replace(&mut self.items, Vec::new(alloc));
        self.finished.push(State { items, exits })?;
        self.state = more(self.state, 1)?;
        Ok(())
    }

    /// The current state goes on to another; the next one has no item.
    pub(crate) fn close_to(&mut self, alloc: Global, to: u32) -> Result<(), NoMemory>
        ensures threaded { OnOk result (threaded_of self.new ≡ closed (threaded_of self.old) (exits.plainly to ∷ [])) }
        ensures standing { OnOk result (standing_of self.new ≡ state_behind (standing_of self.old)) }
    {
        self.close(alloc, vec![in alloc; plainly(alloc, to)]?)
    }

    /// The current state closes a loop that sets nothing; the next one has no item.
    pub(crate) fn close_back(&mut self, alloc: Global, to: u32) -> Result<(), NoMemory>
        ensures threaded { OnOk result (threaded_of self.new ≡ closed (threaded_of self.old) (exits.back_to to [] ∷ [])) }
        ensures standing { OnOk result (standing_of self.new ≡ state_behind (standing_of self.old)) }
    {
        self.close(alloc, vec![in alloc; back_to(alloc, to)]?)
    }

    /// A new state with the item of a statement.
    fn push_statement(
        &mut self,
        alloc: Global,
        graphs: &Graphs,
        statement: &Statement,
    ) -> Result<(), NoMemory>
        requires extents { HasSmallContainers self.old }
        requires small { Every (EachBound IsSmall) (statement_of statement.now) }
        ensures threaded { OnOk result (threaded_of self.new ≡ holding (closed (threaded_of self.old) (exits.plainly (standing_of self.old).state ∷ [])) (items_with (graph_named (graphs_of graphs.now)) (statement_of statement.now) false (standing_of self.old).table (standing_of self.old).container (standing_of self.old).variable no_item)) }
        ensures standing { OnOk result (standing_of self.new ≡ item_behind (statement_of statement.now) (standing_of self.old)) }
    {
        let next = self.state;
        self.close_to(alloc, next)?;
        push_item(
            alloc,
            graphs,
            &mut self.names,
            &mut self.numbers,
            false,
            statement,
            &mut self.items,
        )
    }

    /// The container of an argument, which is in force before the block begins.
    fn pass_argument(&mut self) -> Result<(), NoMemory>
        ensures threaded { OnOk result (threaded_of self.new ≡ threaded_of self.old) }
        ensures standing { OnOk result (standing_of self.new ≡ argument_passed (standing_of self.old)) }
    {
        self.numbers.container = more(self.numbers.container, 1)?;
        Ok(())
    }

    /// A name that is declared; its container is the next one.
    fn declare(&mut self, alloc: Global, name: &str) -> Result<(), NoMemory>
        ensures threaded { OnOk result (threaded_of self.new ≡ threaded_of self.old) }
        ensures standing { OnOk result (standing_of self.new ≡ declared name.now (standing_of self.old)) }
    {
        self.names
            .containers
            .push(String::from_str(alloc, name)?, self.numbers.container)?;
        self.numbers.container = more(self.numbers.container, 1)?;
        Ok(())
    }

    /// A statement that holds no block of states.
    pub(crate) fn push_leaf(
        &mut self,
        alloc: Global,
        graphs: &Graphs,
        statement: &Statement,
    ) -> Result<(), NoMemory>
        requires extents { HasSmallContainers self.old }
        requires small { Every (EachBound IsSmall) (statement_of statement.now) }
        ensures threaded { OnOk result (threaded_of self.new ≡ leaf_threaded (graph_named (graphs_of graphs.now)) (statement_of statement.now) (standing_of self.old) (threaded_of self.old)) }
        ensures standing { OnOk result (standing_of self.new ≡ leaf_behind (statement_of statement.now) (standing_of self.old)) }
    {
        match statement {
            Statement::Argument { .. } => self.pass_argument(),
            Statement::Local { name, .. } | Statement::Stream { name, .. } => {
                self.declare(alloc, name.as_str())
            }
            _ => self.push_statement(alloc, graphs, statement),
        }
    }

    /// The last state of a block goes on behind the `else` that follows, if one does; the number
    /// of the state behind both.
    #[tactic(auto, using(crate::proofs::states_lemmas::BuildingLemmas::some_join, crate::proofs::states_lemmas::BuildingLemmas::some_begun, crate::proofs::states_lemmas::BuildingLemmas::some_else, crate::proofs::states_lemmas::BuildingLemmas::no_join, crate::proofs::states_lemmas::BuildingLemmas::none_begun, crate::proofs::states_lemmas::BuildingLemmas::no_else))]
    pub(crate) fn else_to(&mut self, alloc: Global, other: &[Statement]) -> Result<u32, NoMemory>
        requires { HasSmallContainers self.old }
        ensures join { IfOk result (λ join. join ≡ join_of (block_of other.now) (standing_of self.old)) }
        ensures threaded { OnOk result (threaded_of self.new ≡ else_begun (block_of other.now) (standing_of self.old) (threaded_of self.old)) }
        ensures standing { OnOk result (standing_of self.new ≡ in_else (block_of other.now) (standing_of self.old)) }
        ensures extents { OnOk result (HasSmallContainers self.new) }
    {
        if other.is_empty() {
            return Ok(self.state);
        }
        let join = more(more(self.state, 1)?, states_in_all(other)?)?;
        self.close_to(alloc, join)?;
        Ok(join)
    }

    /// The current state goes on to a block where a condition holds, else behind the block.
    ///
    /// The states of the block are counted for that, so those of a block are counted once for each
    /// loop and branch about it. A program has at most 256 states.
    fn close_if(&mut self, alloc: Global, guard: Guard, body: &[Statement]) -> Result<(), NoMemory>
        ensures threaded { OnOk result (threaded_of self.new ≡ closed (threaded_of self.old) (to_block (guard_tree guard) (block_of body.now) (standing_of self.old))) }
        ensures standing { OnOk result (standing_of self.new ≡ state_behind (standing_of self.old)) }
    {
        let first = self.state;
        let behind = more(more(first, 1)?, states_in_all(body)?)?;
        self.close(
            alloc,
            vec![in alloc; if_holds(alloc, guard, first), plainly(alloc, behind)]?,
        )
    }

    /// The same, where an expression is not 0.
    pub(crate) fn branch_to(
        &mut self,
        alloc: Global,
        line: u32,
        when: &Expr,
        body: &[Statement],
    ) -> Result<(), NoMemory>
        requires { EachSubscript IsSmall (expression_of when.now) }
        ensures threaded { OnOk result (threaded_of self.new ≡ closed (threaded_of self.old) (to_block (guard_of (standing_of self.old).table line (expression_of when.now)) (block_of body.now) (standing_of self.old))) }
        ensures standing { OnOk result (standing_of self.new ≡ state_behind (standing_of self.old)) }
    {
        let guard = guard(alloc, &self.names, line, when)?;
        self.close_if(alloc, guard, body)
    }

    /// The same, where a loop variable is below an end.
    fn loop_to(
        &mut self,
        alloc: Global,
        line: u32,
        name: &str,
        end: &Expr,
        body: &[Statement],
    ) -> Result<(), NoMemory>
        requires { EachSubscript IsSmall (expression_of end.now) }
        ensures threaded { OnOk result (threaded_of self.new ≡ closed (threaded_of self.old) (to_block (below (standing_of self.old).table line name.now (expression_of end.now)) (block_of body.now) (standing_of self.old))) }
        ensures standing { OnOk result (standing_of self.new ≡ state_behind (standing_of self.old)) }
    {
        let guard = guard_below(alloc, &self.names, line, name, end)?;
        self.close_if(alloc, guard, body)
    }

    /// The current state goes on to a loop, and gives its variable the begin. The variable is the
    /// next one, and is in force from here on.
    #[tactic(auto, using(sd_task::proofs::in_force_lemmas::SmallLemmas::zero_within))]
    fn set_begin(&mut self, alloc: Global, name: &str, begin: &Option<Expr>) -> Result<(), NoMemory>
        requires { IfWritten IsSmall (option_map expression_of begin.now) }
        ensures threaded { OnOk result (threaded_of self.new ≡ closed (threaded_of self.old) (exits.setting (standing_of self.old).state (standing_of self.old).variable (affine_or affine_zero (standing_of self.old).table.variables (option_map expression_of begin.now)) ∷ [])) }
        ensures standing { OnOk result (standing_of self.new ≡ with_loop_variable name.now (state_behind (standing_of self.old))) }
    {
        let zero = number(alloc, 0);
        let begin = affine_or(alloc, &zero, &self.names.variables, begin)?;
        let variable = self.numbers.variable;
        let exit = setting(alloc, self.state, variable, begin)?;
        self.close(alloc, vec![in alloc; exit]?)?;
        self.names
            .variables
            .push(String::from_str(alloc, name)?, variable)?;
        self.numbers.variable = more(variable, 1)?;
        Ok(())
    }

    /// The current state goes on to a `for` loop, whose block is behind a state of its own.
    pub(crate) fn begin_loop(
        &mut self,
        alloc: Global,
        line: u32,
        name: &str,
        begin: &Option<Expr>,
        end: &Expr,
        body: &[Statement],
    ) -> Result<Loop, NoMemory>
        requires first { IfWritten IsSmall (option_map expression_of begin.now) }
        requires last { EachSubscript IsSmall (expression_of end.now) }
        ensures header { IfOk result (λ begun. begun.header ≡ (standing_of self.old).state) }
        ensures variable { IfOk result (λ begun. begun.variable ≡ (standing_of self.old).variable) }
        ensures threaded { OnOk result (threaded_of self.new ≡ loop_begun line name.now (option_map expression_of begin.now) (expression_of end.now) (block_of body.now) (standing_of self.old) (threaded_of self.old)) }
        ensures standing { OnOk result (standing_of self.new ≡ in_loop name.now (standing_of self.old)) }
    {
        let begun = Loop {
            header: self.state,
            variable: self.numbers.variable,
        };
        self.set_begin(alloc, name, begin)?;
        self.loop_to(alloc, line, name, end, body)?;
        Ok(begun)
    }

    /// The current state closes a loop and steps its variable on, which is no longer in force.
    pub(crate) fn end_loop(
        &mut self,
        alloc: Global,
        begun: Loop,
        step: Option<i64>,
    ) -> Result<(), NoMemory>
        ensures threaded { OnOk result (threaded_of self.new ≡ closed (threaded_of self.old) (exits.back_to begun.header ((begun.variable, exits.stepped_on begun.variable step) ∷ []) ∷ [])) }
        ensures standing { OnOk result (standing_of self.new ≡ state_behind (without_loop_variable (standing_of self.old))) }
    {
        let exit = step_back(alloc, begun.header, begun.variable, step)?;
        self.close(alloc, vec![in alloc; exit]?)?;
        self.names.variables.pop();
        Ok(())
    }
}
