// The page written again from the record that a reader handed back.
ghost use Rattle.std.specs.Prelude.{◌≡◌, ◌≤◌, length};
ghost use Rattle.refusals.specs.Outcomes.{placed, telling, WritesPage};
ghost use Rattle.shelf_formed.specs.Formed.{HasFront};
ghost use Rattle.page.specs.Slots.{slots_of, slot_place};
ghost use Rattle.threshold_record.specs.Rewritten.{entries_tested, record_tested, page_again};

use crate::reading;
use page::{header, testing};
use refusals::Refusal;
use threshold_page_in::writing;

// A record of n entries.
fn test_entries(configuration: &[u8], fields: &[u8; reading::LENGTH], n: u16) -> Result<(), Refusal>
    requires has_front { HasFront configuration.now }
    requires n_value { n ≡ slots_of configuration.now }
    ensures { result ≡ entries_tested configuration.now fields.now n }
{
    let counted = record_head::test_count(fields, n);
    let Ok(()) = counted else {
        return counted;
    };
    threshold_rows::test_record(configuration, fields, n)
}

// All tests, and how many slots the page has.
fn slots_tested(configuration: &[u8], fields: &[u8; reading::LENGTH]) -> Result<u16, Refusal>
    ensures { result ≡ telling (record_tested configuration.now fields.now) (slots_of configuration.now) }
{
    let counted = testing::configuration_slots(configuration);
    testing::and_test(counted, |n| test_entries(configuration, fields, n))
}

pub fn test(configuration: &[u8], fields: &[u8; reading::LENGTH]) -> Result<(), Refusal>
    ensures { result ≡ record_tested configuration.now fields.now }
{
    slots_tested(configuration, fields).and(Ok(()))
}

// The page of n slots into an output buffer that holds it.
fn put(configuration: &[u8], fields: &[u8; reading::LENGTH], n: u16, out: &mut [u8])
    requires has_front { HasFront configuration.now }
    requires n_value { n ≡ slots_of configuration.now }
    requires n_in_bounds { slot_place n ≤ length out.old }
    ensures { out.new ≡ placed (page_again configuration.now fields.now) out.old }
{
    header::put(configuration, out, writing::CODE, 0, n);
    bits::copy(
        fields,
        threshold_rows::IN_RECORD as u32,
        out,
        threshold_rows::ON_PAGE as u32,
        4 * n as u32,
    );
}

pub fn write(
    configuration: &[u8],
    fields: &[u8; reading::LENGTH],
    out: &mut [u8],
) -> Result<u32, Refusal>
    ensures { WritesPage (record_tested configuration.now fields.now) (page_again configuration.now fields.now) out.old result out.new }
{
    let counted = slots_tested(configuration, fields);
    page::writing::write(counted, out, |out, n| put(configuration, fields, n, out))
}
