// The verdict on one element, by value, from its reading, nominal and thresholds.
//
// Every function takes any value and asks nothing of its caller.
#![tactic(auto)]

pub mod verdict;
