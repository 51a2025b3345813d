// The overall element for the elements of one type: the one that leaves the fewest SELECTs to send, the first in the dictionary among equals.
//
// Only what the wanted records ask for is tried, and the overall element unselected.
#![tactic(auto)]

ghost use Rattle.std.specs.Prelude.{◌≡◌, suc, ◌-◌, ◌<◌, ◌≤◌};
ghost use Rattle.shelf.specs.SettingsList.{HasSettings};
ghost use Rattle.build_overall.specs.Choice.{HasWishes, cost_of, ranked, tried_one, best_after, best_among, repeated, overall_of};

use element_control::Control;
use page::slots::Slot;
use shelf::{elements, settings_list};

// An overall element that is tried, and the SELECTs that its type needs with it.
#[derive(Clone, Copy)]
pub struct Candidate {
    pub overall: [u8; 4],
    pub selects: u32,
}

// The SELECTs that the elements from `first` up to `end` need with this overall element, its own counted.
fn cost(shelf: &[u8], wanted: &[u8], at: Slot, overall: [u8; 4]) -> u32
    requires { HasWishes shelf.now wanted.now at }
    ensures { result ≡ cost_of shelf.now wanted.now at overall }
{
    let kind = at.kind;
    let mut n = (overall[0] >> 7) as u32;
    for j in at.first..at.end {
        let done = build_element::brings(
            kind,
            overall,
            elements::settings_at(shelf, j),
            settings_list::settings_in(wanted, j),
        );
        n += !done as u32;
    }
    n
}

fn try_one(shelf: &[u8], wanted: &[u8], at: Slot, best: Candidate, overall: [u8; 4]) -> Candidate
    requires { HasWishes shelf.now wanted.now at }
    ensures { result ≡ tried_one shelf.now wanted.now at best overall }
{
    let selects = cost(shelf, wanted, at, overall);
    let so_far = best.overall;
    if build_order::sooner(selects, overall, best.selects, so_far) {
        Candidate { overall, selects }
    } else {
        best
    }
}

// The best of one and what is tried for a wanted record.
fn try_record(shelf: &[u8], wanted: &[u8], at: Slot, best: Candidate, x: [u8; 4]) -> Candidate
    requires has_wishes { HasWishes shelf.now wanted.now at }
    requires best_value { best ≡ ranked shelf.now wanted.now at best.overall }
    ensures { result ≡ ranked shelf.now wanted.now at (best_after shelf.now wanted.now at x best.overall) }
{
    let kind = at.kind;
    let n = build_element::tries(kind, x);
    let mut best = best;
    for v in 0..n {
        best = try_one(shelf, wanted, at, best, build_element::tried(kind, x, v));
    }
    best
}

// Whether what is wanted of element j is wanted of one before it, from `first` on.
fn is_repeated(wanted: &[u8], first: u16, j: u16) -> bool
    requires { HasSettings wanted.now j }
    ensures { result ≡ repeated wanted.now first j }
{
    let x = settings_list::settings_in(wanted, j);
    for i in first..j {
        if settings_list::settings_in(wanted, i) == x {
            return true;
        }
    }
    false
}

// The best of one that is the best for the records before j, and what is tried for that of j.
fn consider(shelf: &[u8], wanted: &[u8], at: Slot, best: Candidate, j: u16) -> Candidate
    requires has_wishes { HasWishes shelf.now wanted.now at }
    requires first_le_j { (at.first ≤ j) × (j < at.end) }
    requires best_value { best ≡ best_among shelf.now wanted.now at (j - at.first) }
    ensures { result ≡ best_among shelf.now wanted.now at (suc (j - at.first)) }
{
    if is_repeated(wanted, at.first, j) {
        best
    } else {
        try_record(
            shelf,
            wanted,
            at,
            best,
            settings_list::settings_in(wanted, j),
        )
    }
}

// Where one SELECT at most is needed without an overall element, none with one does better.
pub fn overall(shelf: &[u8], wanted: &[u8], at: Slot) -> [u8; 4]
    requires { HasWishes shelf.now wanted.now at }
    ensures { result ≡ overall_of shelf.now wanted.now at }
{
    let selects = cost(shelf, wanted, at, Control::UNSELECTED);
    if selects <= 1 {
        return Control::UNSELECTED;
    }
    let mut best = Candidate {
        overall: Control::UNSELECTED,
        selects,
    };
    for j in at.first..at.end {
        best = consider(shelf, wanted, at, best, j);
    }
    best.overall
}
