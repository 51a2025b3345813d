// Which bits of a control element a type names, beside those that all types have in byte 0.
ghost use Rattle.std.specs.Prelude.{◌≡◌};
ghost use Rattle.element.specs.Types.{layout_of};

use crate::types::Kind;

// The flags in bytes 1 to 3, and the speed code in byte 3.
#[derive(Clone, Copy)]
pub struct Layout {
    pub flags1: u8,
    pub flags2: u8,
    pub flags3: u8,
    pub speed: u8,
}

impl Layout {
    pub fn of(kind: Kind) -> Layout
        ensures { result ≡ layout_of kind }
    {
        kind.rules().layout
    }
}
