// The configuration page: written from the front of a shelf block, and read as a configuration, which is such a front.
#![tactic(auto)]

pub mod reading;
pub mod writing;
