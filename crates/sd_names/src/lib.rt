//! The names that are in force at a line of a source, and the expressions over them.
//!
//! `Names` has what each name means, and is seen as the definition's own tables (`Names.antt`): each call
//! gives exactly the value that it has there. `affine_of` gives the normal form of an affine
//! expression that `Expressions.antt` defines, or tells that a part of it passes a limit. `any_name` asks a test of each name of an
//! expression, whatever the test is. Only memory can be wanting.
#![tactic(auto)]

mod affine_value;
mod extents;
mod meaning;
mod name_set;
mod name_test;
mod names;
mod table;

pub use affine_value::{affine_list, affine_of, is_affine, value_of};
pub use extents::{Extents, are_same, is_same};
pub use meaning::{Container, Meaning, Parameter, Signature};
pub use name_set::NameSet;
pub use name_test::{
    NameTest, any_name, any_name_of, any_name_of_bound, any_name_of_dimensions, count_of,
};
pub use names::{Names, is_reserved};
