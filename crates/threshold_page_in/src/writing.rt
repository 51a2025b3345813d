// The page of a shelf.
ghost use Rattle.std.specs.Prelude.{◌≡◌, [], ◌∷◌};
ghost use Rattle.bits.specs.Choice.{pick};
ghost use Rattle.shelf.specs.Elements.{thresholds_at};
ghost use Rattle.refusals.specs.Outcomes.{placed, WritesPage};
ghost use Rattle.page.specs.Slots.{slots_of, slot_at, HasElements};
ghost use Rattle.page.specs.Header.{shelf_tested, HasPage};
ghost use Rattle.threshold_page_in.specs.Page.{threshold_row, threshold_page};

use page::slots::Slot;
use page::{header, testing, walk, writing};
use refusals::Refusal;
use shelf::elements;

pub const CODE: u8 = 0x05;

// The four bytes of a slot.
fn threshold_row(shelf: &[u8], at: Slot) -> [u8; 4]
    requires { HasElements shelf.now at }
    ensures { result ≡ pick at.overall (0 ∷ 0 ∷ 0 ∷ 0 ∷ []) (thresholds_at shelf.now at.first) }
{
    if at.overall {
        [0, 0, 0, 0]
    } else {
        elements::thresholds_at(shelf, at.first)
    }
}

// The page of n slots into an output buffer that holds it.
fn put(shelf: &[u8], n: u16, out: &mut [u8])
    requires has_page { HasPage shelf.now out.old }
    requires n_value { n ≡ slots_of shelf.now }
    ensures { out.new ≡ placed (threshold_page shelf.now) out.old }
{
    header::put(shelf, out, CODE, 0, n);
    let row = |at: Slot, i: u16| -> [u8; 4]
        requires has_elements { HasElements shelf.now at }
        requires at_value { at ≡ slot_at shelf.now i }
        ensures { result ≡ threshold_row shelf.entry.now i }
    { threshold_row(shelf, at) };
    walk::put_rows(shelf, out, n, row);
}

pub fn write(shelf: &[u8], out: &mut [u8]) -> Result<u32, Refusal>
    ensures { WritesPage (shelf_tested shelf.now) (threshold_page shelf.now) out.old result out.new }
{
    let counted = testing::shelf_slots(shelf);
    writing::write(counted, out, |out, n| put(shelf, n, out))
}
