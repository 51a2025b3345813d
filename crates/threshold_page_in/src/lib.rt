// The Threshold In page (05h), written from a shelf.
#![tactic(auto)]

pub mod writing;
