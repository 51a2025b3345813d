// What the tool is given: the words of a command, and the files that it names.
#![tactic(auto)]

pub mod arguments;
pub mod files;
