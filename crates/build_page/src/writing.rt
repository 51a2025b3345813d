// The page, slot after slot.
ghost use Rattle.std.specs.Prelude.{◌≡◌, true, ◌*◌, ◌≤◌, length};
ghost use Rattle.bits.specs.Choice.{pick};
ghost use Rattle.bits.specs.Numbers.{bytes};
ghost use Rattle.shelf.specs.Types.{elements_of};
ghost use Rattle.shelf_formed.specs.Formed.{well_formed};
ghost use Rattle.build_overall.specs.Choice.{HasWishes, overall_of};
ghost use Rattle.page.specs.Slots.{slots_of, slots_put};
ghost use Rattle.page.specs.Header.{HasPage};
ghost use Rattle.build_page.specs.Outcome.{built_of, left_by};
ghost use Rattle.build_page.specs.Page.{row_under, row_for, selects_for, control_page};

use crate::built::Built;
use control_page::testing;
use page::slots::Slot;
use page::{header, slots};
use refusals::Refusal;
use shelf::{elements, settings_list};

// The overall element that stands from this slot on, as the number that its bytes say: so one register carries it.
fn overall(shelf: &[u8], wanted: &[u8], at: Slot, standing: u32) -> u32
    requires { HasWishes shelf.now wanted.now at }
    ensures { bytes 4 result ≡ pick at.overall (overall_of shelf.now wanted.now at) (bytes 4 standing) }
{
    if at.overall {
        let best = build_overall::overall(shelf, wanted, at);
        bits::big32_at(&best, 0)
    } else {
        standing
    }
}

// The four bytes of a slot, where this is the overall element of its type.
fn row(shelf: &[u8], wanted: &[u8], at: Slot, overall: u32) -> [u8; 4]
    requires { HasWishes shelf.now wanted.now at }
    ensures { result ≡ row_under shelf.now wanted.now at (bytes 4 overall) }
{
    let over = bits::four_of(overall);
    if at.overall {
        return over;
    }
    build_element::one(
        at.kind,
        over,
        elements::settings_at(shelf, at.first),
        settings_list::settings_in(wanted, at.first),
    )
}

// Puts the first n slots, and tells their SELECTs. The overall element of a type is searched where the type starts, and carried on to
// its elements: `over`, which takes a call's result by way of a variable.
fn put_slots(shelf: &[u8], wanted: &[u8], out: &mut [u8], n: u16) -> u32
    requires has_page { HasPage shelf.now out.old }
    requires n_value { n ≡ slots_of shelf.now }
    requires shelf_in_bounds { 4 * elements_of shelf.now ≤ length wanted.now }
    ensures value { result ≡ selects_for shelf.now wanted.now n }
    ensures out_after { out.new ≡ slots_put (row_for shelf.now wanted.now) out.old n }
{
    let mut sum: u32 = 0;
    let mut over: u32 = 0;
    let mut run = slots::first_run();
    for i in 0..n {
        run = slots::run_to(shelf, run, i);
        let at = slots::slot_in(run, i);
        let current = overall(shelf, wanted, at, over);
        over = current;
        let bytes = row(shelf, wanted, at, current);
        bits::put_four(out, slots::slot_place(i), bytes);
        sum += (bytes[0] >> 7) as u32;
    }
    sum
}

// Writes the page if the output buffer holds it.
pub fn write(shelf: &[u8], wanted: &[u8], out: &mut [u8]) -> Result<Built, Refusal>
    requires shelf_value { well_formed shelf.now ≡ true }
    requires shelf_in_bounds { 4 * elements_of shelf.now ≤ length wanted.now }
    ensures value { result ≡ built_of (control_page shelf.now wanted.now) (selects_for shelf.now wanted.now (slots_of shelf.now)) out.old }
    ensures out_after { out.new ≡ left_by result (control_page shelf.now wanted.now) out.old }
{
    let n = slots::count(shelf);
    let fit = refusals::fit(slots::slot_place(n), out.len());
    let Ok(bytes) = fit else {
        return fit.and(Ok(Built::NOTHING));
    };
    header::put(shelf, out, testing::CODE, 0, n);
    let selects = put_slots(shelf, wanted, out, n);
    Ok(Built { bytes, selects })
}
