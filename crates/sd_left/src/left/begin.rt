//! Trees that begin, counted.
ghost use Rattle.std.specs.Prelude.{◌≡◌, ℕ, ◌∷◌, [], map, length, nat_eq, true, false, IfOk};
ghost use Rattle.sd_work.specs.Memory.{Memories, waiting as waiting_in};
ghost use Rattle.sd_work.specs.Residual.{list, pool, Points, idle};
ghost use Rattle.sd_graph.specs.PlainTree.{KindTree};
ghost use Rattle.sd_graph.specs.Context.{Context};
ghost use Rattle.sd_graph.specs.Unfold.{order_of_points};
ghost use Rattle.sd_order.specs.table.Told.{told};
ghost use Rattle.sd_left.specs.tree.Standing.{points_left, element_term, nested_left};
ghost use Rattle.sd_left.specs.left.Kept.{left_of, bodies_kept, body_kept, run_kept};
ghost use Rattle.sd_left.specs.left.Waits.{is_counted, is_body_counted, are_bodies_counted, is_run_counted, all_hold};
ghost use Rattle.sd_left.specs.left.Telling.{all_right};
ghost use Rattle.sd_left.specs.left.Tells.{tells, bodies_tell, body_tells, run_tells};

use crate::left::count::{
    moves_of_each, moves_of_parts, pools_of_each, pools_of_parts, unfinished_bodies,
    unfinished_parts,
};
use crate::left::left::{Bodies, Body, Left, Run};
use sd_list::{NoMemory, Tally};
use sd_mem::{Memory, Station};
use sd_order::Order;
use std::alloc::Global;

impl Left {
    /// A map at these points, sequential or not.
    pub fn points(alloc: Global, sequential: bool, points: Vec<Body>) -> Result<Left, NoMemory>
        ensures kept { IfOk result (λ made. (kind : KindTree) (line : ℕ) (context : Context) → left_of made kind line context ≡ list Points (order_of_points sequential) (points_left (map body_kept points.items) kind context)) }
        ensures counted { IfOk result (λ made. (memories : Memories) → is_counted made memories ≡ all_hold (map is_body_counted points.items) memories) }
        ensures right { IfOk result (λ made. (tells made).is_right ≡ all_right (map body_tells points.items)) }
    {
        let points = Bodies::of(alloc, points)?;
        Ok(Left::Points { sequential, points })
    }

    /// A consume scope over a stream in which so many values wait. No element is in work.
    pub fn pool(alloc: Global, stream: Station, waiting: usize) -> Result<Left, NoMemory>
        ensures kept { IfOk result (λ made. (kind : KindTree) (line : ℕ) (context : Context) → left_of made kind line context ≡ pool stream.level stream.container (element_term kind context) idle false) }
        ensures counted { IfOk result (λ made. (memories : Memories) → is_counted made memories ≡ nat_eq waiting (length (waiting_in stream.level stream.container memories))) }
        ensures right { IfOk result (λ made. (tells made).is_right ≡ true) }
    {
        let active = Bodies::of(alloc, Vec::new(alloc))?;
        Ok(Left::Pool {
            stream,
            active,
            waiting,
            closed: false,
        })
    }

    /// A nested graph with this run.
    pub fn nested(alloc: Global, run: Run) -> Result<Left, NoMemory>
        ensures kept { IfOk result (λ made. (kind : KindTree) (line : ℕ) (context : Context) → left_of made kind line context ≡ nested_left (run_kept run) kind line context) }
        ensures counted { IfOk result (λ made. (memories : Memories) → is_counted made memories ≡ is_run_counted run memories) }
        ensures right { IfOk result (λ made. (tells made).is_right ≡ (run_tells run).is_right) }
    {
        Ok(Left::Nested(Box::new(alloc, run)?))
    }
}

impl Bodies {
    /// These bodies, counted.
    pub fn of(alloc: Global, bodies: Vec<Body>) -> Result<Bodies, NoMemory>
        ensures kept { IfOk result (λ made. bodies_kept made ≡ map body_kept bodies.items) }
        ensures counted { IfOk result (λ made. (memories : Memories) → are_bodies_counted made memories ≡ all_hold (map is_body_counted bodies.items) memories) }
        ensures right { IfOk result (λ made. (bodies_tell made).is_right ≡ all_right (map body_tells bodies.items)) }
    {
        let moves = moves_of_each(alloc, &bodies)?;
        let unfinished = unfinished_bodies(alloc, &bodies)?;
        let pools = pools_of_each(alloc, &bodies)?;
        let moves = Tally::of(alloc, &moves)?;
        let unfinished = Tally::of(alloc, &unfinished)?;
        let pools = Tally::of(alloc, &pools)?;
        Ok(Bodies {
            bodies,
            moves,
            unfinished,
            open: pools,
        })
    }
}

impl Body {
    /// Items of which this is left, counted.
    pub fn begin(
        alloc: Global,
        at: Vec<i128>,
        own: Memory,
        order: Order,
        parts: Vec<Left>,
    ) -> Result<Body, NoMemory>
        ensures kept { IfOk result (λ made. body_kept made ≡ record { at = at.items; own = own.contents; order = told order; parts = map left_of parts.items }) }
        ensures counted { IfOk result (λ made. (memories : Memories) → is_body_counted made memories ≡ all_hold (map is_counted parts.items) (own.contents ∷ memories)) }
        ensures right { IfOk result (λ made. (body_tells made).is_right ≡ all_right (map tells parts.items)) }
    {
        let moves = moves_of_parts(alloc, &order, &parts)?;
        let unfinished = unfinished_parts(alloc, &parts)?;
        let pools = pools_of_parts(alloc, &parts)?;
        let moves = Tally::of(alloc, &moves)?;
        let unfinished = Tally::of(alloc, &unfinished)?;
        let pools = Tally::of(alloc, &pools)?;
        Ok(Body {
            at,
            own,
            order,
            parts,
            moves,
            unfinished,
            open: pools,
        })
    }
}

impl Run {
    /// A run that goes on in this state.
    pub fn begin(state: u32, body: Body) -> Run
        ensures kept { run_kept result ≡ record { state = state; ended = false; body = body_kept body } }
        ensures counted { (memories : Memories) → is_run_counted result memories ≡ is_body_counted body memories }
        ensures right { (run_tells result).is_right ≡ (body_tells body).is_right }
    {
        Run {
            state,
            ended: false,
            body,
        }
    }
}
