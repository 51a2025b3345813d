// Which control pages a shelf accepts.
ghost use Rattle.std.specs.Prelude.{◌≡◌, ◌+◌, ◌≤◌, length, Ok};
ghost use Rattle.bits.specs.Choice.{pick};
ghost use Rattle.bits.specs.Places.{four_at};
ghost use Rattle.element_control.specs.Control.{offending};
ghost use Rattle.refusals.specs.Outcomes.{not_allowed_at};
ghost use Rattle.shelf_formed.specs.Formed.{HasFront};
ghost use Rattle.page.specs.Slots.{slots_of, slot_place};
ghost use Rattle.page.specs.Walk.{slot_tested};
ghost use Rattle.control_page.specs.Tests.{first_allows, bytes_tested, control_tested};

use element::types::Kind;
use element_control::Control;
use page::slots::Slot;
use page::{slots, testing, walk};
use refusals::PageRefusal;

pub const CODE: u8 = 0x02;

// The first byte of slot i, of this type, that is refused; 4 if none is.
fn slot_offending(kind: Kind, page: &[u8], i: u16) -> u8
    requires { slot_place i + 4 ≤ length page.now }
    ensures { result ≡ offending kind (four_at page.now (slot_place i)) }
{
    Control::offending(kind, bits::four_at(page, slots::slot_place(i)))
}

// Byte 1.
fn test_byte(page: &[u8]) -> Result<(), PageRefusal>
    requires { 4 ≤ length page.now }
    ensures { result ≡ pick (first_allows page.now) (Ok tt) (not_allowed_at 1) }
{
    if bits::byte_at(page, 1) & 0xf0 != 0 {
        return refusals::not_allowed(1);
    }
    Ok(())
}

// The page's own tests: byte 1, and slot by slot the first byte that is refused.
fn test_bytes(shelf: &[u8], page: &[u8], n: u16) -> Result<(), PageRefusal>
    requires has_front { HasFront shelf.now }
    requires n_bound { n ≤ slots_of shelf.now }
    requires n_in_bounds { slot_place n ≤ length page.now }
    ensures { result ≡ bytes_tested shelf.now page.now n }
{
    let byte = test_byte(page);
    let Ok(()) = byte else {
        return byte;
    };
    let test = |at: Slot, i: u16| -> Result<(), PageRefusal>
        requires { slot_place i + 4 ≤ length page.now }
        ensures { result ≡ slot_tested i (offending at.kind (four_at page.entry.now (slot_place i))) }
    { walk::test_slot(i, slot_offending(at.kind, page, i)) };
    walk::test_slots(shelf, n, test)
}

pub fn test(shelf: &[u8], page: &[u8]) -> Result<(), PageRefusal>
    ensures { result ≡ control_tested shelf.now page.now }
{
    let counted = testing::page_slots(shelf, page, CODE);
    testing::and_test_bytes(counted, |n| test_bytes(shelf, page, n))
}
