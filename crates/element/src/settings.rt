// What an element is set to, as a record and as the four bytes that the shelf stores.
ghost use Rattle.std.specs.Prelude.{◌≡◌};
ghost use Rattle.element.specs.Layouts.{said, stored};
ghost use Rattle.element.specs.Settings.{settings_of, settings_bytes, settings_formed};

use crate::layout::Layout;
use crate::types::Kind;

// PRDFAIL, DISABLED and SWAP, which all types have; the type's own flags, where bytes 1 to 3 of its control element have them; SPEED.
#[derive(Clone, Copy)]
pub struct Settings {
    pub prdfail: bool,
    pub disabled: bool,
    pub swap: bool,
    pub flags1: u8,
    pub flags2: u8,
    pub flags3: u8,
    pub speed: u8,
}

impl Settings {
    pub fn of(kind: Kind, e: [u8; 4]) -> Settings
        ensures { result ≡ settings_of kind e }
    {
        said(Layout::of(kind), e)
    }

    pub fn bytes(self, kind: Kind) -> [u8; 4]
        ensures { result ≡ settings_bytes kind self }
    {
        stored(Layout::of(kind), self)
    }
}

fn said(layout: Layout, e: [u8; 4]) -> Settings
    ensures { result ≡ said layout e }
{
    Settings {
        prdfail: e[0] >> 6 & 1 == 1,
        disabled: e[0] >> 5 & 1 == 1,
        swap: e[0] >> 4 & 1 == 1,
        flags1: e[1] & layout.flags1,
        flags2: e[2] & layout.flags2,
        flags3: e[3] & layout.flags3,
        speed: e[3] & layout.speed,
    }
}

fn stored(layout: Layout, s: Settings) -> [u8; 4]
    ensures { result ≡ stored layout s }
{
    [
        bits::join(bits::nibble(false, s.prdfail, s.disabled, s.swap), 0),
        s.flags1 & layout.flags1,
        s.flags2 & layout.flags2,
        s.flags3 & layout.flags3 | s.speed & layout.speed,
    ]
}

// The four bytes are settings that the type may have: SPEED is not 0 where there is one.
pub fn are_formed(kind: Kind, e: [u8; 4]) -> bool
    ensures { result ≡ settings_formed kind e }
{
    let speed = Layout::of(kind).speed;
    bits::are_within(e, kind.settings()) & ((speed == 0) | (e[3] & speed != 0))
}
