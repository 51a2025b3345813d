// The element types, and of one element by value what it is set to.
//
// Every function takes any value and asks nothing of its caller.
#![tactic(auto)]

pub mod layout;
pub mod settings;
pub mod types;
pub mod verdict;
