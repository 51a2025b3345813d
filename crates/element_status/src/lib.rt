// Status elements, and the entries of a record that say the same: sixteen bytes, of which four are alike for all types (code, PRDFAIL,
// DISABLED, SWAP) and twelve are laid out by the type.
//
// Every function takes any value and asks nothing of its caller.
#![tactic(auto)]

pub mod fields;
pub mod types;

ghost use Rattle.std.specs.Prelude.{◌≡◌};
ghost use Rattle.element.specs.StatusLayout.{fit};
ghost use Rattle.element.specs.Rules.{code_allowed, first_clear};
ghost use Rattle.element.specs.Status.{status_offending, most_shown, most_overall, overall_offending, code_alone};

use element::types::Kind;

// The bytes of an entry.
pub const ENTRY: usize = 16;

// The first byte of a status element that has a bit set which the type does not name, or a code above 8; 4 if none has.
pub fn offending(kind: Kind, e: [u8; 4]) -> u8
    ensures { result ≡ status_offending kind e }
{
    let m = bits::four_of(kind.shown());
    if bits::are_within(e, kind.shown()) & code_allowed(e[0] % 16) {
        return 4;
    }
    bits::first_of(
        first_clear(e[0]),
        e[1] & m[1] == e[1],
        e[2] & m[2] == e[2],
        e[3] & m[3] == e[3],
    )
}

pub fn overall_offending(e: [u8; 4]) -> u8
    ensures { result ≡ overall_offending e }
{
    bits::first_of(code_allowed(e[0]), e[1] == 0, e[2] == 0, e[3] == 0)
}

fn code_allowed(code: u8) -> bool
    ensures { result ≡ code_allowed code }
{
    match code {
        0..=8 => true,
        _ => false,
    }
}

fn first_clear(a: u8) -> bool
    ensures { result ≡ first_clear a }
{
    (a & 0x7f == a) & code_allowed(a % 16)
}

pub fn code_alone(code: u8) -> [u8; ENTRY]
    ensures { result ≡ code_alone code }
{
    [code, 0, 0, 0, 0, 0, 0, 0, 0, 0, 0, 0, 0, 0, 0, 0]
}

// No byte of an entry is out of range, or set where the type shows nothing.
pub fn fits(kind: Kind, x: [u8; ENTRY]) -> bool
    ensures { result ≡ fit (most_shown kind) x 16 }
{
    fields::are_within(
        x,
        0x0f010101,
        kind.shown_first(),
        kind.shown_next(),
        kind.shown_last(),
    ) & code_allowed(x[0])
}

// An overall element shows its code alone.
pub fn overall_fits(x: [u8; ENTRY]) -> bool
    ensures { result ≡ fit most_overall x 16 }
{
    fields::are_within(x, 0x0f000000, 0, 0, 0) & code_allowed(x[0])
}
