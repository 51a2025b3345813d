// The page read, under a configuration.
//
// Where a descriptor starts is told by those before it. A first walk over them tests that they end where the page ends, so that the
// others read only what is there.
ghost use Rattle.std.specs.Prelude.{◌≡◌, true, false, ◌+◌, ◌*◌, ◌<◌, ◌≤◌, length, Ok};
ghost use Rattle.bits.specs.Found.{found_below};
ghost use Rattle.bits.specs.Rows.{put_bytes, rows_put};
ghost use Rattle.refusals.specs.Outcomes.{placed, HandsBack};
ghost use Rattle.shelf.specs.Limits.{most_types, most_elements, most_text, HasTypes};
ghost use Rattle.page.specs.Slots.{slots_of};
ghost use Rattle.page.specs.Header.{most_said, length_said, length_tested};
ghost use Rattle.names.specs.Name.{padded};
ghost use Rattle.descriptor_record.specs.Rewritten.{entry_place};
ghost use Rattle.descriptor_record.specs.Read.{declared, place_on, byte_offends, offends, head_tested, bytes_tested, page_tested, names_read, name_on, names_record};

use descriptor_page::writing;
use page::{header, slots, testing};
use refusals::{PageRefusal, Refusal};
use shelf::{limits, texts};

// A record of names has room for an entry of each slot.
pub const LENGTH: usize = FIRST_ENTRY as usize
    + limits::MOST_TEXT as usize * limits::MOST_SLOTS as usize;

pub const FIRST_ENTRY: u32 = 4;

// The length of the text that the descriptor at k declares.
fn declared_at(page: &[u8], k: u32) -> u32
    requires k_in_bounds { k + 4 ≤ length page.now }
    requires page_len_bound { length page.now ≤ most_said }
    ensures { result ≡ declared page.now k }
{
    bits::big16_at(page, k + 2) as u32
}

// The length that n descriptors need.
fn test_length(page: &[u8], n: u16) -> Result<(), Refusal>
    requires { length_said page.now ≡ true }
    ensures { result ≡ length_tested page.now (place_on page.now n) }
{
    let bytes = page.len() as u32;
    let mut k = writing::FIRST;
    for i in 0..n {
        if bytes < k + 4 {
            return Err(Refusal::NeededLength);
        }
        k += 4 + declared_at(page, k);
    }
    header::test_length(page, k)
}

// The tests before the page's own.
fn test_head(configuration: &[u8], page: &[u8], n: u16) -> Result<(), Refusal>
    requires { HasTypes configuration.now }
    ensures { result ≡ head_tested configuration.now page.now n }
{
    let frame = header::test_frame(page, writing::CODE);
    let Ok(()) = frame else {
        return frame;
    };
    let length = test_length(page, n);
    let Ok(()) = length else {
        return length;
    };
    header::test_generation(configuration, page)
}

// The first offending byte of the descriptor at k, whose text has n bytes, counted from there.
fn descriptor_offence(page: &[u8], k: u32, n: u32) -> Option<u32>
    requires n_value { n ≡ declared page.now k }
    requires n_in_bounds { k + (4 + n) ≤ length page.now }
    requires page_len_bound { length page.now ≤ most_said }
    ensures { result ≡ found_below (byte_offends page.now k) (4 + n) }
{
    if bits::byte_at(page, k) != 0 {
        return Some(0);
    }
    if bits::byte_at(page, k + 1) != 0 {
        return Some(1);
    }
    if n > limits::MOST_TEXT as u32 {
        return Some(2);
    }
    let run = bits::printable_run(page, k + 4, n);
    if run < n { Some(4 + run) } else { None }
}

// The first of all. Nothing before the descriptors offends.
fn descriptors_offence(page: &[u8], n: u16) -> Option<u32>
    requires page_len { length page.now ≡ place_on page.now n }
    requires page_len_bound { length page.now ≤ most_said }
    requires n_value { offends page.now n 1 ≡ false }
    ensures { result ≡ found_below (offends page.now n) (place_on page.now n) }
{
    let mut k = writing::FIRST;
    for i in 0..n {
        let text = declared_at(page, k);
        if let Some(j) = descriptor_offence(page, k, text) {
            return Some(k + j);
        }
        k += 4 + text;
    }
    None
}

fn first_offence(page: &[u8], n: u16) -> Option<u32>
    requires page_len { length page.now ≡ place_on page.now n }
    requires page_len_bound { length page.now ≤ most_said }
    ensures { result ≡ found_below (offends page.now n) (place_on page.now n) }
{
    if bits::byte_at(page, 1) != 0 {
        return Some(1);
    }
    descriptors_offence(page, n)
}

// The page's own tests.
fn test_bytes(page: &[u8], n: u16) -> Result<(), PageRefusal>
    requires page_len { length page.now ≡ place_on page.now n }
    requires page_len_bound { length page.now ≤ most_said }
    ensures { result ≡ bytes_tested page.now n }
{
    match first_offence(page, n) {
        Some(k) => refusals::not_allowed(k),
        None => Ok(()),
    }
}

// A page of n descriptors, its header and then its bytes.
fn test_page(configuration: &[u8], page: &[u8], n: u16) -> Result<(), PageRefusal>
    requires { HasTypes configuration.now }
    ensures { result ≡ page_tested configuration.now page.now n }
{
    let head = test_head(configuration, page, n);
    let Ok(()) = head else {
        return refusals::of_page(head);
    };
    test_bytes(page, n)
}

pub fn test(configuration: &[u8], page: &[u8]) -> Result<(), PageRefusal>
    ensures { result ≡ names_read configuration.now page.now }
{
    let configured = testing::configuration_slots(configuration);
    let Ok(n) = configured else {
        return refusals::of_page(configured.and(Ok(())));
    };
    test_page(configuration, page, n)
}

// Puts entry i, whose descriptor stands at k, and tells how long that is.
fn put_name(page: &[u8], k: u32, i: u16, fields: &mut [u8; LENGTH]) -> u32
    requires k_value { k ≡ place_on page.now i }
    requires k_in_bounds { k + (4 + declared page.now k) ≤ length page.now }
    requires page_len_bound { length page.now ≤ most_said }
    requires k_bound { declared page.now k ≤ most_text }
    requires i_bound { i < most_types + most_elements }
    ensures value { result ≡ 4 + declared page.now k }
    ensures fields_after { fields.new ≡ put_bytes fields.old (entry_place i) (padded (name_on page.now i)) }
{
    let bytes = declared_at(page, k);
    let text = texts::padded(page, k + 4, bytes);
    bits::copy(
        &text,
        0,
        fields,
        writing::name_at(FIRST_ENTRY, i),
        limits::MOST_TEXT as u32,
    );
    4 + bytes
}

fn put_names(configuration: &[u8], page: &[u8], n: u16, fields: &mut [u8; LENGTH])
    requires page_value { names_read configuration.now page.now ≡ Ok tt }
    requires n_value { n ≡ slots_of configuration.now }
    ensures { fields.new ≡ rows_put entry_place (λ i. padded (name_on page.now i)) fields.old n }
{
    let mut k = writing::FIRST;
    for i in 0..n {
        k += put_name(page, k, i, fields);
    }
}

// The record that an accepted page tells.
fn hand_over(configuration: &[u8], page: &[u8], fields: &mut [u8; LENGTH])
    requires { names_read configuration.now page.now ≡ Ok tt }
    ensures { fields.new ≡ placed (names_record configuration.now page.now) fields.old }
{
    let n = slots::count(configuration);
    record_head::put(fields, 0, 0, n);
    put_names(configuration, page, n, fields);
}

pub fn read(configuration: &[u8], page: &[u8], fields: &mut [u8; LENGTH]) -> Result<(), PageRefusal>
    ensures { HandsBack (names_read configuration.now page.now) (names_record configuration.now page.now) fields.old result fields.new }
{
    let tested = test(configuration, page);
    let Ok(()) = tested else {
        return tested;
    };
    hand_over(configuration, page, fields);
    tested
}
