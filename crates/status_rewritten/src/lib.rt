// The status page written again from the record that a reader handed back.
#![tactic(auto)]

ghost use Rattle.std.specs.Prelude.{◌≡◌, ◌≤◌, length, Ok};
ghost use Rattle.element.specs.StatusLayout.{fit};
ghost use Rattle.refusals.specs.Outcomes.{unless, placed, telling, WritesPage};
ghost use Rattle.refusals.specs.declared.Refusal.TheVariants.{NotAllowed};
ghost use Rattle.shelf_formed.specs.Formed.{HasFront};
ghost use Rattle.page.specs.Slots.{slots_of, slot_place};
ghost use Rattle.status_page.specs.Page.{slot_bytes};
ghost use Rattle.status_record.specs.Entries.{entry_place, HasEntry, entry_at};
ghost use Rattle.status_rewritten.specs.Rewritten.{slot_most, bits_tested, fields_tested, entries_tested, record_tested, page_again};

use page::slots::Slot;
use page::{header, testing, walk};
use refusals::Refusal;
use status_page::writing;

// No field of entry i is out of range, or set where its slot shows none.
fn entry_formed(fields: &[u8], at: Slot, i: u16) -> bool
    requires { HasEntry fields.now i }
    ensures { result ≡ fit (slot_most at) (entry_at fields.now i) 16 }
{
    let x = status_record::entry_at(fields, i);
    if at.overall {
        element_status::overall_fits(x)
    } else {
        element_status::fits(at.kind, x)
    }
}

fn test_bits(fields: &[u8; status_record::LENGTH]) -> Result<(), Refusal>
    ensures { result ≡ bits_tested fields.now }
{
    if !status_record::bits_formed(fields) {
        return Err(Refusal::NotAllowed);
    }
    Ok(())
}

fn test_fields(configuration: &[u8], fields: &[u8], n: u16) -> Result<(), Refusal>
    requires has_front { HasFront configuration.now }
    requires n_bound { n ≤ slots_of configuration.now }
    requires n_in_bounds { entry_place n ≤ length fields.now }
    ensures { result ≡ fields_tested configuration.now fields.now n }
{
    let test = |at: Slot, i: u16| -> Result<(), Refusal>
        requires { HasEntry fields.now i }
        ensures { result ≡ unless (fit (slot_most at) (entry_at fields.entry.now i) 16) NotAllowed (Ok tt) }
    {
        if !entry_formed(fields, at, i) {
            return Err(Refusal::NotAllowed);
        }
        Ok(())
    };
    walk::test_slots(configuration, n, test)
}

// A record of n entries.
fn test_entries(
    configuration: &[u8],
    fields: &[u8; status_record::LENGTH],
    n: u16,
) -> Result<(), Refusal>
    requires has_front { HasFront configuration.now }
    requires n_value { n ≡ slots_of configuration.now }
    ensures { result ≡ entries_tested configuration.now fields.now n }
{
    let counted = record_head::test_count(fields, n);
    let Ok(()) = counted else {
        return counted;
    };
    let flags = test_bits(fields);
    let Ok(()) = flags else {
        return flags;
    };
    test_fields(configuration, fields, n)
}

// All tests, and how many slots the page has.
fn slots_tested(configuration: &[u8], fields: &[u8; status_record::LENGTH]) -> Result<u16, Refusal>
    ensures { result ≡ telling (record_tested configuration.now fields.now) (slots_of configuration.now) }
{
    let counted = testing::configuration_slots(configuration);
    testing::and_test(counted, |n| test_entries(configuration, fields, n))
}

pub fn test(configuration: &[u8], fields: &[u8; status_record::LENGTH]) -> Result<(), Refusal>
    ensures { result ≡ record_tested configuration.now fields.now }
{
    slots_tested(configuration, fields).and(Ok(()))
}

// The page of n slots into an output buffer that holds it.
fn put(configuration: &[u8], fields: &[u8; status_record::LENGTH], n: u16, out: &mut [u8])
    requires has_front { HasFront configuration.now }
    requires n_value { n ≡ slots_of configuration.now }
    requires n_in_bounds { slot_place n ≤ length out.old }
    ensures { out.new ≡ placed (page_again configuration.now fields.now) out.old }
{
    let own = status_record::bits_at(fields).byte();
    header::put(configuration, out, writing::CODE, own, n);
    let row = |at: Slot, i: u16| -> [u8; 4]
        requires { HasEntry fields.now i }
        ensures { result ≡ slot_bytes at (entry_at fields.entry.now i) }
    { writing::slot_bytes(at, status_record::entry_at(fields, i)) };
    walk::put_rows(configuration, out, n, row);
}

pub fn write(
    configuration: &[u8],
    fields: &[u8; status_record::LENGTH],
    out: &mut [u8],
) -> Result<u32, Refusal>
    ensures { WritesPage (record_tested configuration.now fields.now) (page_again configuration.now fields.now) out.old result out.new }
{
    let counted = slots_tested(configuration, fields);
    page::writing::write(counted, out, |out, n| put(configuration, fields, n, out))
}
