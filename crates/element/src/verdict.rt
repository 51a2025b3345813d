// What follows from a reading: the status code, and the four limit bits in the order of the thresholds.
#[derive(Clone, Copy)]
pub struct Verdict {
    pub code: u8,
    pub highcrit: bool,
    pub highwarn: bool,
    pub lowwarn: bool,
    pub lowcrit: bool,
}
