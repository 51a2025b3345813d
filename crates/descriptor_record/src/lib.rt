// The Element Descriptor page (07h) read as a record of names, and written again from one.
#![tactic(auto)]

pub mod reading;
pub mod rewriting;
