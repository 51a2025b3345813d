// The page written again from a record. The test of the entries counts the bytes of the page.
ghost use Rattle.std.specs.Prelude.{◌≡◌, true, ◌+◌, ◌<◌, ◌≤◌, Some, None};
ghost use Rattle.bits.specs.Choice.{pick};
ghost use Rattle.refusals.specs.Outcomes.{telling, WritesPage};
ghost use Rattle.shelf.specs.Limits.{most_types, most_elements, most_text};
ghost use Rattle.names.specs.Name.{name_length};
ghost use Rattle.page.specs.Slots.{slots_of};
ghost use Rattle.descriptor_record.specs.Rewritten.{entry_place, entry_formed, entries_formed, entry_size, bytes_again, entries_tested, record_tested, page_again};

use crate::reading;
use descriptor_page::writing;
use names::name;
use page::{slots, testing};
use refusals::Refusal;
use shelf::limits;

// Zeros stand behind the name of entry i, which has n bytes.
fn is_ended(fields: &[u8; reading::LENGTH], i: u16, n: u32) -> bool
    requires i_bound { i < most_types + most_elements }
    requires n_value { n ≡ name_length fields.now (entry_place i) }
    ensures { result ≡ entry_formed fields.now i }
{
    let at = writing::name_at(reading::FIRST_ENTRY, i);
    for k in n..limits::MOST_TEXT as u32 {
        if bits::byte_at(fields, at + k) != 0 {
            return false;
        }
    }
    true
}

// How long the descriptor of entry i is, if that is a name with zeros behind it.
fn entry_size(fields: &[u8; reading::LENGTH], i: u16) -> Option<u32>
    requires { i < most_types + most_elements }
    ensures { result ≡ pick (entry_formed fields.now i) (Some (entry_size fields.now i)) None }
{
    let n = name::length_at(fields, writing::name_at(reading::FIRST_ENTRY, i));
    if is_ended(fields, i, n) {
        Some(4 + n)
    } else {
        None
    }
}

// How long the page of n entries is, if each of them is so.
fn page_size(fields: &[u8; reading::LENGTH], n: u16) -> Option<u32>
    requires { n ≤ most_types + most_elements }
    ensures { result ≡ pick (entries_formed fields.now n) (Some (bytes_again fields.now n)) None }
{
    let mut bytes = writing::FIRST;
    for i in 0..n {
        bytes += entry_size(fields, i)?;
    }
    Some(bytes)
}

fn test_entries(fields: &[u8; reading::LENGTH], n: u16) -> Result<u32, Refusal>
    requires { n ≤ most_types + most_elements }
    ensures { result ≡ telling (entries_tested fields.now n) (bytes_again fields.now n) }
{
    let count = record_head::test_count(fields, n);
    let Ok(()) = count else {
        return count.and(Ok(0));
    };
    page_size(fields, n).ok_or(Refusal::NotAllowed)
}

fn test(configuration: &[u8], fields: &[u8; reading::LENGTH]) -> Result<u32, Refusal>
    ensures { result ≡ telling (record_tested configuration.now fields.now) (bytes_again fields.now (slots_of configuration.now)) }
{
    let configured = testing::configuration_slots(configuration);
    let Ok(n) = configured else {
        return configured.and(Ok(0));
    };
    test_entries(fields, n)
}

pub fn write(
    configuration: &[u8],
    fields: &[u8; reading::LENGTH],
    out: &mut [u8],
) -> Result<u32, Refusal>
    ensures { WritesPage (record_tested configuration.now fields.now) (page_again configuration.now fields.now) out.old result out.new }
{
    let tested = test(configuration, fields);
    let Ok(bytes) = tested else {
        return tested;
    };
    let n = slots::count(configuration);
    writing::write(configuration, fields, reading::FIRST_ENTRY, n, bytes, out)
}
