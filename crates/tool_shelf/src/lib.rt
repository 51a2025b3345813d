// The built-in shelf; the settings of a shelf as a list, and what a command changed in it.
#![tactic(auto)]

pub mod builtin;
pub mod changes;
pub mod settings;
