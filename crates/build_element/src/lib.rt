// One element's wish: the control elements that bring its stored settings to wanted ones.
#![tactic(auto)]

ghost use Rattle.std.specs.Prelude.{◌≡◌};
ghost use Rattle.element_control.specs.Control.{control_of};
ghost use Rattle.build_element.specs.Wishes.{in_reach, request_bytes, request_for, turning, own, brings, one};
ghost use Rattle.build_element.specs.Parts.{tried, tries};

use element::settings::Settings;
use element::types::Kind;
use element_control::Control;

// No control element sets a SWAP: a wanted one must be there.
pub fn in_reach(kind: Kind, stored: [u8; 4], wanted: [u8; 4]) -> bool
    ensures { result ≡ in_reach kind stored wanted }
{
    let s = Settings::of(kind, stored);
    let w = Settings::of(kind, wanted);
    s.swap | !w.swap
}

// The selected element that asks for these settings.
fn request_bytes(kind: Kind, request: Settings) -> [u8; 4]
    ensures { result ≡ request_bytes kind request }
{
    let e = request.bytes(kind);
    [e[0] | 0x80, e[1], e[2], e[3]]
}

// The speed code that changes one speed to the other, 0 where they are the same.
fn turning(stored: u8, wanted: u8) -> u8
    ensures { result ≡ turning stored wanted }
{
    if stored == wanted { 0 } else { wanted }
}

// A request for the wanted flags, with this RST SWAP and speed code.
fn request(wanted: Settings, reset: bool, code: u8) -> Settings
    ensures { result ≡ request_for wanted reset code }
{
    Settings {
        prdfail: wanted.prdfail,
        disabled: wanted.disabled,
        swap: reset,
        flags1: wanted.flags1,
        flags2: wanted.flags2,
        flags3: wanted.flags3,
        speed: code,
    }
}

// The element of its own that brings an element there: RST SWAP and a speed code only where they are needed.
fn own(kind: Kind, stored: [u8; 4], wanted: [u8; 4]) -> [u8; 4]
    ensures { result ≡ own kind stored wanted }
{
    let s = Settings::of(kind, stored);
    let w = Settings::of(kind, wanted);
    let code = turning(s.speed, w.speed);
    request_bytes(kind, request(w, s.swap & !w.swap, code))
}

// Whether a control element brings stored settings to wanted ones.
pub fn brings(kind: Kind, control: [u8; 4], stored: [u8; 4], wanted: [u8; 4]) -> bool
    ensures { result ≡ brings kind (control_of kind control) stored wanted }
{
    let reached = if Control::is_selected(control) {
        let set = Control::of(kind, control).act(Settings::of(kind, stored));
        set.bytes(kind)
    } else {
        stored
    };
    reached == wanted
}

// The individual element to send under an overall one: none where that does it.
pub fn one(kind: Kind, overall: [u8; 4], stored: [u8; 4], wanted: [u8; 4]) -> [u8; 4]
    ensures { result ≡ one kind (control_of kind overall) stored wanted }
{
    if brings(kind, overall, stored, wanted) {
        Control::UNSELECTED
    } else {
        own(kind, stored, wanted)
    }
}

// What is tried for a wanted record, v below 4: speed code 0 and the wanted one, each with RST SWAP 0 and 1.
pub fn tried(kind: Kind, wanted: [u8; 4], v: u8) -> [u8; 4]
    ensures { result ≡ tried kind wanted v }
{
    let w = Settings::of(kind, wanted);
    let reset = v % 2 == 1;
    if v < 2 {
        request_bytes(kind, request(w, reset, 0))
    } else {
        request_bytes(kind, request(w, reset, w.speed))
    }
}

// How many of these there are that differ: a type without speeds has only the first two.
pub fn tries(kind: Kind, wanted: [u8; 4]) -> u8
    ensures { result ≡ tries kind wanted }
{
    if Settings::of(kind, wanted).speed == 0 {
        2
    } else {
        4
    }
}
