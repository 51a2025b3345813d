// What the pages 02h and 05h share: a header, and slots of four bytes, one for each overall and each individual element.
#![tactic(auto)]

pub mod header;
pub mod places;
pub mod slots;
pub mod testing;
pub mod walk;
pub mod writing;
