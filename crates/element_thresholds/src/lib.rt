// The four thresholds of one element, by value: which its type has, their order, and what a page makes of them.
//
// Every function takes any value and asks nothing of its caller.
#![tactic(auto)]

ghost use Rattle.std.specs.Prelude.{◌≡◌};
ghost use Rattle.element.specs.Thresholds.{byte_taken, taken, at_least, low_ordered};
ghost use Rattle.element.specs.Types.{had, ordered};

use element::types::{Kind, LowOrder};

fn byte_taken(own: u8, overall: u8, stored: u8) -> u8
    ensures { result ≡ byte_taken own overall stored }
{
    if own != 0 {
        own
    } else if overall != 0 {
        overall
    } else {
        stored
    }
}

// The thresholds after a page that gives these individual and overall bytes.
pub fn taken(own: [u8; 4], overall: [u8; 4], stored: [u8; 4]) -> [u8; 4]
    ensures { result ≡ taken own overall stored }
{
    [
        byte_taken(own[0], overall[0], stored[0]),
        byte_taken(own[1], overall[1], stored[1]),
        byte_taken(own[2], overall[2], stored[2]),
        byte_taken(own[3], overall[3], stored[3]),
    ]
}

// No byte is set that the type does not have.
pub fn are_had(kind: Kind, t: [u8; 4]) -> bool
    ensures { result ≡ had kind t }
{
    bits::are_within(t, kind.thresholds())
}

// Tested only where both bytes are nonzero.
fn at_least(a: u8, b: u8) -> bool
    ensures { result ≡ at_least a b }
{
    (a == 0) | (b == 0) | (b <= a)
}

fn low_ordered(order: LowOrder, t: [u8; 4]) -> bool
    ensures { result ≡ low_ordered order t }
{
    match order {
        LowOrder::Any => true,
        LowOrder::WarningAbove => at_least(t[2], t[3]),
        LowOrder::CriticalAbove => at_least(t[3], t[2]),
    }
}

pub fn are_ordered(kind: Kind, t: [u8; 4]) -> bool
    ensures { result ≡ ordered kind t }
{
    at_least(t[0], t[1]) & low_ordered(kind.low_order(), t)
}
