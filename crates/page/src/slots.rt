// The slots of a page, in page order: for each type its overall element, then its individual elements.
ghost use Rattle.std.specs.Prelude.{◌≡◌, ◌+◌, ◌<◌, ◌≤◌};
ghost use Rattle.bits.specs.Bits.{num};
ghost use Rattle.shelf.specs.Limits.{HasTypes};
ghost use Rattle.shelf_formed.specs.Formed.{HasFront};
ghost use Rattle.page.specs.Slots.{slots_of, slot_place, unstarted, slot_run, slot_carried, slot_in};

use element::types::Kind;
use shelf::types;

// What a slot is for: the elements from `first` up to `end`, for an individual element that one alone.
#[derive(Clone, Copy)]
pub struct Slot {
    pub kind: Kind,
    pub overall: bool,
    pub first: u16,
    pub end: u16,
}

// A type with its slots, as a walk has it at one of them: whether that is the overall one, how many types there are up to
// this one, and where its slots end.
#[derive(Clone, Copy)]
pub struct SlotRun {
    pub kind: Kind,
    pub overall: bool,
    pub types: u16,
    pub end: u16,
}

// How many slots a page has.
pub fn count(configuration: &[u8]) -> u16
    requires { HasTypes configuration.now }
    ensures { result ≡ slots_of configuration.now }
{
    types::count(configuration) + types::all_elements(configuration)
}

// From which a walk starts: no type yet.
pub fn first_run() -> SlotRun
    ensures { result ≡ unstarted }
{
    SlotRun {
        kind: Kind::Current,
        overall: false,
        types: 0,
        end: 0,
    }
}

// The type of slot i, from that of the slot before it: each type has a slot, so it is the same or the next.
pub fn run_to(configuration: &[u8], run: SlotRun, i: u16) -> SlotRun
    requires has_front { HasFront configuration.now }
    requires i_bound { i < slots_of configuration.now }
    requires run_value { run ≡ slot_carried configuration.now i }
    ensures { result ≡ slot_run configuration.now i }
{
    if i < run.end {
        let kind = run.kind;
        return SlotRun {
            kind,
            overall: false,
            types: run.types,
            end: run.end,
        };
    }
    let t = run.types;
    let kind = Kind::of(types::code_of(configuration, t));
    SlotRun {
        kind,
        overall: true,
        types: t + 1,
        end: i + types::elements_of(configuration, t) as u16 + 1,
    }
}

// What slot i is for, of this type.
pub fn slot_in(run: SlotRun, i: u16) -> Slot
    requires i_lt_end { i < run.end }
    requires types_bound { run.types ≤ i + num run.overall }
    ensures { result ≡ slot_in run i }
{
    let kind = run.kind;
    let after = i + 1 - run.types;
    if run.overall {
        Slot {
            kind,
            overall: true,
            first: after,
            end: run.end - run.types,
        }
    } else {
        Slot {
            kind,
            overall: false,
            first: after - 1,
            end: after,
        }
    }
}

// Where slot i stands on a page.
pub fn slot_place(i: u16) -> u32
    ensures { result ≡ slot_place i }
{
    8 + 4 * i as u32
}
