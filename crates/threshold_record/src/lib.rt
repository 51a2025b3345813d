// The record of a Threshold In page: read from the page, and written again as one.
#![tactic(auto)]

pub mod reading;
pub mod rewriting;
