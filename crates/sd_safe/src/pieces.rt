//! Pieces of a state's items leave each other what they have to find.
//!
//! `specs/pieces/ItemPieces.antt` has the pieces as parts of their items, `Keeping.antt` what the boxes of a piece's accesses ask to be as
//! it was. By `laws`, of two pieces of a valid, accepted graph of which neither's item is before the other's, the one leaves alone what the
//! other keeps or drains. So that stays as it was while other pieces are done, from when a piece may follow on a history until it is done.
mod laws;

pub use laws::{
    items_of_a_state_may_interleave, pieces_are_parts_of_their_items,
    pieces_leave_alone_what_another_one_keeps, what_a_piece_keeps_stays_until_it_is_done,
};
