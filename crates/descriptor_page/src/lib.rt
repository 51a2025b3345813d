// The Element Descriptor page (07h), written from names that stand one after the other, and so from a shelf.
#![tactic(auto)]

pub mod writing;
