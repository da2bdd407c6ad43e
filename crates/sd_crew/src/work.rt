//! The pieces of a state's items, as workers do them.
ghost use Rattle.std.specs.Prelude.{◌≡◌};

use sd_board::{Assigned, Pieces};
use sd_cut::Overlay;
use sd_graph::Bound;
use sd_list::NoMemory;
use sd_mem::Memory;
use sd_part::PartEnd;
use sd_piece::{Piece, PieceAt, PieceEnd, cut_piece, run_piece};
use std::alloc::Global;
use std::marker::{Model, PhantomData};

/// The pieces of a state's items, where the variables have these values. Each is done with so many turns.
#[derive(Drop)]
pub(crate) struct StatePieces<'a, A: Assigned> {
    pub(crate) alloc: Global,
    pub(crate) bound: &'a Bound,
    pub(crate) values: &'a [i128],
    pub(crate) places: &'a [PieceAt],
    pub(crate) turns: u64,
    pub(crate) of: PhantomData<A>,
}

impl<'a, A: Assigned> Model for StatePieces<'a, A> {
    ghost use Rattle.std.specs.Coded.{codes};
    ghost use Rattle.sd_graph.specs.contracts.graph.Sdfg as sdfg;
    ghost use Rattle.sd_crew.specs.Work.{StateWork, IsWorkOf};

    ghost Value = { StateWork };

    ghost coded = { Prim.hlevel (codes, sdfg.the_row.coded) };

    ghost view = { λ p. record { graph = p.bound.now.graph; values = p.values.now; places = p.places.now; turns = p.turns } };

    ghost invariant = { λ p. IsWorkOf A.assignment (record { graph = p.bound.now.graph; values = p.values.now; places = p.places.now; turns = p.turns }) };
}

impl<'a, A: Assigned> Pieces<A> for StatePieces<'a, A> {
    ghost use Rattle.sd_crew.specs.Work.{IsCutOf};

    type Cut = Piece;

    ghost is_cut = { λ work number cut. IsCutOf A.assignment work number cut };

    fn cut(&self, number: usize, memory: &Memory) -> Result<Piece, NoMemory> {
        let Some(at) = self.places.get(number) else {
            return Err(NoMemory);
        };
        match cut_piece(self.alloc, self.bound, *at, self.values, memory) {
            Ok(piece) => Ok(piece),
            Err(_) => Err(NoMemory),
        }
    }

    fn run(&self, _number: usize, cut: Piece) -> Result<(Overlay, PartEnd), NoMemory> {
        let PieceEnd { cut, end } = run_piece(self.alloc, self.bound, cut, self.turns)?;
        Ok((cut, end))
    }
}
