// The names of a shelf: 32 bytes for each overall and each individual element, behind the elements. Any bytes mean some name, so none
// is tested when a shelf is opened.
#![tactic(auto)]

pub mod finding;
pub mod name;
pub mod setting;
