// The status page (02h) read, under a configuration.
#![tactic(auto)]

pub mod reading;
