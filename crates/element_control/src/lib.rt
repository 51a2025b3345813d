// A control element, by value: what it asks, which of two acts, and what it makes of settings.
//
// Every function takes any value and asks nothing of its caller.
#![tactic(auto)]

ghost use Rattle.std.specs.Prelude.{◌≡◌};
ghost use Rattle.element.specs.Requests.{reserved_in, speed_after, acted};
ghost use Rattle.element_control.specs.Control.{selected, control_of, offending};

use element::settings::Settings;
use element::types::Kind;

// In the number that four bytes say.
const SELECT: u32 = 0x80000000;

// SELECT, and the settings that are requested, RST SWAP in the place of SWAP.
#[derive(Clone, Copy)]
pub struct Control {
    pub select: bool,
    pub request: Settings,
}

impl Control {
    // An element without SELECT asks no more than this one, whatever its other bits.
    pub const UNSELECTED: [u8; 4] = [0, 0, 0, 0];

    pub fn is_selected(e: [u8; 4]) -> bool
        ensures { result ≡ selected e }
    {
        e[0] >> 7 & 1 == 1
    }

    pub fn of(kind: Kind, e: [u8; 4]) -> Control
        ensures { result ≡ control_of kind e }
    {
        if Control::is_selected(e) {
            let request = Settings::of(kind, e);
            Control {
                select: true,
                request,
            }
        } else {
            let request = Settings::of(kind, Control::UNSELECTED);
            Control {
                select: false,
                request,
            }
        }
    }

    // The first byte with a reserved bit set; 4 if none has one, or without SELECT.
    pub fn offending(kind: Kind, e: [u8; 4]) -> u8
        ensures { result ≡ offending kind e }
    {
        if Control::is_selected(e) {
            reserved(kind, e)
        } else {
            4
        }
    }

    // What a selected element makes of settings.
    pub fn act(self, s: Settings) -> Settings
        ensures { result ≡ acted self.request s }
    {
        let request = self.request;
        let speed = speed_after(request.speed, s.speed);
        Settings {
            prdfail: request.prdfail,
            disabled: request.disabled,
            swap: s.swap & !request.swap,
            flags1: request.flags1,
            flags2: request.flags2,
            flags3: request.flags3,
            speed,
        }
    }
}

// The first byte with a bit set that a control element does not name; 4 if none has one.
fn reserved(kind: Kind, e: [u8; 4]) -> u8
    ensures { result ≡ reserved_in kind e }
{
    bits::first_outside(e, SELECT + kind.settings())
}

fn speed_after(code: u8, stored: u8) -> u8
    ensures { result ≡ speed_after code stored }
{
    if code == 0 { stored } else { code }
}
