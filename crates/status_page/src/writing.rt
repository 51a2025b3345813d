// The page of a shelf.
ghost use Rattle.std.specs.Prelude.{◌≡◌};
ghost use Rattle.bits.specs.Choice.{pick};
ghost use Rattle.element.specs.Status.{code_alone};
ghost use Rattle.refusals.specs.Outcomes.{placed, WritesPage};
ghost use Rattle.shelf_status.specs.ShelfStatus.{shown_at, worst};
ghost use Rattle.page.specs.Slots.{slots_of, slot_at, HasElements};
ghost use Rattle.page.specs.Header.{shelf_tested, HasPage};
ghost use Rattle.status_page.specs.Page.{slot_bytes, slot_row, shown_in, status_page};

use page::slots::Slot;
use page::{header, testing, walk, writing};
use refusals::Refusal;
use shelf_status::PageBits;

pub const CODE: u8 = 0x02;

// The four bytes of a slot that say an entry.
pub fn slot_bytes(at: Slot, x: [u8; element_status::ENTRY]) -> [u8; 4]
    ensures { result ≡ slot_bytes at x }
{
    if at.overall {
        [x[0], 0, 0, 0]
    } else {
        element_status::types::bytes(at.kind, x)
    }
}

// The four bytes of a slot of the shelf's page.
fn slot_row(shelf: &[u8], at: Slot) -> [u8; 4]
    requires { HasElements shelf.now at }
    ensures { result ≡ slot_bytes at (pick at.overall (code_alone (worst shelf.now at.kind at.first at.end)) (shown_at shelf.now at.kind at.first)) }
{
    if at.overall {
        [
            shelf_status::worst(shelf, at.kind, at.first, at.end),
            0,
            0,
            0,
        ]
    } else {
        shelf_status::status_at(shelf, at.kind, at.first)
    }
}

// The page of n slots into an output buffer that holds it.
#[tactic(auto, using(crate::proofs::Loops::shelf_row))]
fn put(shelf: &[u8], n: u16, out: &mut [u8])
    requires has_page { HasPage shelf.now out.old }
    requires n_value { n ≡ slots_of shelf.now }
    ensures { out.new ≡ placed (status_page shelf.now) out.old }
{
    header::put(shelf, out, CODE, PageBits::of(shelf).byte(), n);
    let row = |at: Slot, i: u16| -> [u8; 4]
        requires has_elements { HasElements shelf.now at }
        requires at_value { at ≡ slot_at shelf.now i }
        ensures { result ≡ slot_row shelf.entry.now (shown_in shelf.entry.now) i }
    { slot_row(shelf, at) };
    walk::put_rows(shelf, out, n, row);
}

// It tells no refusal of its own. count_unwritten is for the must-fail edit that has it tell one: so that is refused by its number.
#[tactic(auto, using(refusals::proofs::Left::count_unwritten))]
pub fn write(shelf: &[u8], out: &mut [u8]) -> Result<u32, Refusal>
    ensures { WritesPage (shelf_tested shelf.now) (status_page shelf.now) out.old result out.new }
{
    let counted = testing::shelf_slots(shelf);
    writing::write(counted, out, |out, n| put(shelf, n, out))
}
