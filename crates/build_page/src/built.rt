// What the call that builds a page tells of it: how many bytes were written, and how many SELECTs they have.
#[derive(Clone, Copy)]
pub struct Built {
    pub bytes: u32,
    pub selects: u32,
}

impl Built {
    // What is told where the call is refused.
    pub const NOTHING: Built = Built {
        bytes: 0,
        selects: 0,
    };
}
