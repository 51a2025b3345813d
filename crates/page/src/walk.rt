// Walks over the first n slots of a page, which call at each what they are given.
ghost use Rattle.std.specs.Prelude.{◌≡◌, ℕ, List, ◌≤◌, length, Result};
ghost use Rattle.shelf_formed.specs.Formed.{HasFront};
ghost use Rattle.page.specs.Slots.{slots_of, slot_place, slots_put};
ghost use Rattle.page.specs.Calls.{TakesSlots, GivesAt};
ghost use Rattle.page.specs.Walk.{first_refusal, slot_tested};

use crate::slots;
use crate::slots::Slot;
use refusals::PageRefusal;

// Puts a row into each slot.
pub fn put_rows<F: Fn(Slot, u16) -> [u8; 4]>(configuration: &[u8], out: &mut [u8], n: u16, row: F)
    requires has_front { HasFront configuration.now }
    requires n_bound { n ≤ slots_of configuration.now }
    requires n_in_bounds { slot_place n ≤ length out.old }
    requires takes { TakesSlots (F.pre row) configuration.now n }
    ensures { (f : ℕ → List ℕ) → GivesAt (F.post row) configuration.now n f → out.new ≡ slots_put f out.old n }
{
    let mut run = slots::first_run();
    for i in 0..n {
        run = slots::run_to(configuration, run, i);
        let e = row(slots::slot_in(run, i), i);
        bits::put_four(out, slots::slot_place(i), e);
    }
}

// Tests slot by slot, up to the first that is refused.
pub fn test_slots<E: Copy, F: Fn(Slot, u16) -> Result<(), E>>(
    configuration: &[u8],
    n: u16,
    test: F,
) -> Result<(), E>
    requires has_front { HasFront configuration.now }
    requires n_bound { n ≤ slots_of configuration.now }
    requires takes { TakesSlots (F.pre test) configuration.now n }
    ensures { (f : ℕ → Result (Unit {0}) E) → GivesAt (F.post test) configuration.now n f → result ≡ first_refusal f n }
{
    let mut run = slots::first_run();
    for i in 0..n {
        run = slots::run_to(configuration, run, i);
        let tested = test(slots::slot_in(run, i), i);
        let Ok(()) = tested else {
            return tested;
        };
    }
    Ok(())
}

// What a slot's test comes to that found byte k to be the first refused; 4 if none is.
pub fn test_slot(i: u16, k: u8) -> Result<(), PageRefusal>
    ensures { result ≡ slot_tested i k }
{
    if k < 4 {
        return refusals::not_allowed(slots::slot_place(i) + k as u32);
    }
    Ok(())
}
