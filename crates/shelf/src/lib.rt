// The shelf record as one lent block of bytes: its limits and places, its types and elements; and the settings of all of them as a list.
//
// Reading and writing ask that the bytes are there, and nothing else of what they hold. The crate `shelf_formed` says whether a
// block is a shelf, and so that they are.
#![tactic(auto)]

pub mod elements;
pub mod limits;
pub mod settings_list;
pub mod texts;
pub mod types;
pub mod walk;
