// The page read, under a configuration.
ghost use Rattle.std.specs.Prelude.{◌≡◌, ◌+◌, ◌≤◌, length, get_or, Ok};
ghost use Rattle.bits.specs.Choice.{pick};
ghost use Rattle.bits.specs.Places.{four_at};
ghost use Rattle.element.specs.Status.{status_offending, overall_offending, code_alone, entry_of};
ghost use Rattle.refusals.specs.Outcomes.{placed, HandsBack};
ghost use Rattle.shelf_formed.specs.Formed.{HasFront};
ghost use Rattle.page.specs.Slots.{slots_of, slot_place};
ghost use Rattle.status_record.specs.Entries.{entry_place, entries_put};
ghost use Rattle.status_reading.specs.Read.{offence, bytes_tested, slot_shown, bits_on, status_read, status_record};

use page::slots::Slot;
use page::{slots, testing};
use refusals::PageRefusal;
use shelf_status::PageBits;
use status_page::writing;

// The first byte of slot i that is refused; 4 if none is.
fn slot_offending(page: &[u8], at: Slot, i: u16) -> u8
    requires { slot_place i + 4 ≤ length page.now }
    ensures { result ≡ pick at.overall (overall_offending (four_at page.now (slot_place i))) (status_offending at.kind (four_at page.now (slot_place i))) }
{
    let e = bits::four_at(page, slots::slot_place(i));
    if at.overall {
        element_status::overall_offending(e)
    } else {
        element_status::offending(at.kind, e)
    }
}

// The first byte of the page, in page order, that is refused; the page's length if none is. By page::walk::test_slots, as in
// control_page, reading a page of 64 fans took 1.51 times the instructions of plain C, by this 1.49 times.
fn first_offence(configuration: &[u8], page: &[u8], n: u16) -> u32
    requires has_front { HasFront configuration.now }
    requires n_bound { n ≤ slots_of configuration.now }
    requires n_in_bounds { slot_place n ≤ length page.now }
    ensures { result ≡ offence configuration.now page.now n }
{
    if bits::byte_at(page, 1) & 0xf9 != 0 {
        return 1;
    }
    let mut run = slots::first_run();
    for i in 0..n {
        run = slots::run_to(configuration, run, i);
        let at = slots::slot_in(run, i);
        let k = slot_offending(page, at, i);
        if k < 4 {
            return slots::slot_place(i) + k as u32;
        }
    }
    slots::slot_place(n)
}

// The entry that a slot says.
fn slot_shown(page: &[u8], at: Slot, i: u16) -> [u8; element_status::ENTRY]
    requires { slot_place i + 4 ≤ length page.now }
    ensures { result ≡ pick at.overall (code_alone (get_or page.now (slot_place i) 0)) (entry_of at.kind (four_at page.now (slot_place i))) }
{
    let e = bits::four_at(page, slots::slot_place(i));
    if at.overall {
        element_status::code_alone(e[0])
    } else {
        element_status::types::entry(at.kind, e)
    }
}

fn bits_on(page: &[u8]) -> PageBits
    requires { 4 ≤ length page.now }
    ensures { result ≡ bits_on page.now }
{
    let b = bits::byte_at(page, 1);
    PageBits {
        noncritical: b >> 2 & 1 == 1,
        critical: b >> 1 & 1 == 1,
    }
}

fn put_entries(configuration: &[u8], page: &[u8], fields: &mut [u8], n: u16)
    requires has_front { HasFront configuration.now }
    requires n_bound { n ≤ slots_of configuration.now }
    requires n_in_bounds { slot_place n ≤ length page.now }
    requires n_in_bounds_2 { entry_place n ≤ length fields.old }
    ensures { fields.new ≡ entries_put (slot_shown configuration.now page.now) fields.old n }
{
    let mut run = slots::first_run();
    for i in 0..n {
        run = slots::run_to(configuration, run, i);
        let at = slots::slot_in(run, i);
        status_record::put_entry(fields, i, slot_shown(page, at, i));
    }
}

// The page's own tests.
fn test_bytes(configuration: &[u8], page: &[u8], n: u16) -> Result<(), PageRefusal>
    requires has_front { HasFront configuration.now }
    requires n_bound { n ≤ slots_of configuration.now }
    requires n_in_bounds { slot_place n ≤ length page.now }
    ensures { result ≡ bytes_tested configuration.now page.now n }
{
    refusals::searched(first_offence(configuration, page, n), slots::slot_place(n))
}

pub fn test(configuration: &[u8], page: &[u8]) -> Result<(), PageRefusal>
    ensures { result ≡ status_read configuration.now page.now }
{
    let counted = testing::read_slots(configuration, page, writing::CODE);
    testing::and_test_bytes(counted, |n| test_bytes(configuration, page, n))
}

// The record that an accepted page tells.
fn hand_over(configuration: &[u8], page: &[u8], fields: &mut [u8; status_record::LENGTH])
    requires { status_read configuration.now page.now ≡ Ok tt }
    ensures { fields.new ≡ placed (status_record configuration.now page.now) fields.old }
{
    let n = slots::count(configuration);
    status_record::put_head(fields, bits_on(page), n);
    put_entries(configuration, page, fields, n);
}

pub fn read(
    configuration: &[u8],
    page: &[u8],
    fields: &mut [u8; status_record::LENGTH],
) -> Result<(), PageRefusal>
    ensures { HandsBack (status_read configuration.now page.now) (status_record configuration.now page.now) fields.old result fields.new }
{
    let tested = test(configuration, page);
    let Ok(()) = tested else {
        return tested;
    };
    hand_over(configuration, page, fields);
    tested
}
