//! The data of a graph, what its code means, and what the graph has to do.
//!
//! A graph is seen as a plain tree (`specs/PlainTree.antt`), to which `TreeFold.antt` folds it; four
//! builders each add one thing at the end of a list, and a copy has the same plain tree. What code
//! means is `TaskletMeaning.antt`, which items are before which `Wiring.antt`, and `Unfold.antt` turns a
//! graph into the residual work of `sd_work`. By `laws` the run of every graph is in order and touches
//! nothing outside, and it has one outcome where unmarked transitions lead upwards.
#![tactic(auto)]

mod builder;
mod container;
mod copying;
mod exit;
mod graph;
mod laws;
mod link;
mod operator;
mod path;
mod place;
mod tasklet;
mod wired;

pub use container::{Container, ContainerKind};
pub use exit::{Exit, Guard};
pub use graph::{Bound, Item, ItemKind, Sdfg, State};
pub use laws::{
    a_graph_is_run_from_left_to_right, a_machine_of_a_graph_is_well_formed,
    a_path_of_any_length_is_found, a_run_of_a_graph_has_ordered_pools, a_run_of_a_graph_is_ordered,
    a_run_of_a_graph_pays_its_cycles, a_run_of_a_graph_touches_nothing_outside,
    a_run_of_a_graph_touches_what_is_there, a_run_of_a_graph_unfolds_new,
    a_sequential_map_moves_at_its_first_unfinished_point, before_is_the_closure_of_conflicts,
    each_effect_is_inside_its_connector, each_element_has_a_number_of_its_own,
    each_run_of_a_graph_has_one_outcome, each_touch_of_an_item_is_of_one_of_its_uses,
    elements_are_at_the_places_of_their_connector, items_of_a_list_have_an_order,
    items_without_order_touch_compatibly,
};
pub use link::{Link, Memlet};
pub use operator::{OneSign, TwoSign};
pub use path::Path;
pub use place::{Frame, Kept, Place};
pub use sd_num::Width;
pub use sd_work::FaultKind;
pub use tasklet::{Act, Port, Tasklet, Value};
pub use wired::{Edge, Node, NodeKind, Wired};
