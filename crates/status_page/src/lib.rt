// The status page (02h), written from a shelf.
#![tactic(auto)]

pub mod writing;
