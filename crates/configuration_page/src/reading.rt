// The configuration page, read: its tests, and the configuration that it tells.
//
// Nothing is read before the page's length says that it is there: first the bytes before the headers, then the headers, then the
// texts.
ghost use Rattle.std.specs.Prelude.{◌≡◌, true, ◌+◌, ◌<◌, ◌≤◌, length, None, Ok};
ghost use Rattle.bits.specs.Found.{found_below};
ghost use Rattle.bits.specs.Places.{four_at};
ghost use Rattle.bits.specs.Rows.{put_bytes, rows_put};
ghost use Rattle.refusals.specs.Outcomes.{placed, HandsBack};
ghost use Rattle.shelf.specs.Limits.{most_types, type_place, element_place, HasTypes};
ghost use Rattle.page.specs.Header.{length_said, length_tested};
ghost use Rattle.configuration_page.specs.Page.{header_place};
ghost use Rattle.configuration_page.specs.Read.{types_on, needed_length, text_offends, offends, room_tested, bytes_tested, configuration_read};
ghost use Rattle.configuration_page.specs.Configuration.{told_byte, head_told, told_start, type_told, configuration_of};

use crate::writing;
use element::types::Kind;
use page::header;
use refusals::{PageRefusal, Refusal};
use shelf::{limits, texts};

// Where a page has the number of types.
const TYPES: u32 = 10;

fn types_on(page: &[u8]) -> u16
    requires { header_place 0 ≤ length page.now }
    ensures { result ≡ types_on page.now }
{
    bits::byte_at(page, TYPES) as u16
}

// The header of type t: its code, its count, a zero byte, the length of its text.
fn header_on(page: &[u8], t: u16) -> [u8; 4]
    requires { header_place t + 4 ≤ length page.now }
    ensures { result ≡ four_at page.now (header_place t) }
{
    bits::four_at(page, writing::header_place(t))
}

// The length that the type list needs: the texts stand behind all headers.
fn needed_length(page: &[u8]) -> u32
    requires { header_place (types_on page.now) ≤ length page.now }
    ensures { result ≡ needed_length page.now }
{
    let n = types_on(page);
    let mut bytes = writing::header_place(n);
    for t in 0..n {
        let e = header_on(page, t);
        bytes += e[3] as u32;
    }
    bytes
}

// The first offending byte before the headers. What a well-formed shelf couldn't have written offends.
fn fixed_offence(page: &[u8]) -> Option<u32>
    requires { header_place 0 ≤ length page.now }
    ensures { result ≡ found_below (offends page.now) (header_place 0) }
{
    if bits::byte_at(page, 1) != 0 {
        return Some(1);
    }
    if bits::byte_at(page, 8) != writing::PROCESS {
        return Some(8);
    }
    if bits::byte_at(page, 9) != 0 {
        return Some(9);
    }
    let types = types_on(page);
    if !((1 <= types) & (types <= limits::MOST_TYPES)) {
        return Some(TYPES);
    }
    if bits::byte_at(page, 11) != writing::DESCRIPTOR {
        return Some(11);
    }
    None
}

// The first up to the end of the n headers. A total too large is told at the count that passes it.
fn headers_offence(page: &[u8], n: u16) -> Option<u32>
    requires n_value { n ≡ types_on page.now }
    requires n_in_bounds { header_place n ≤ length page.now }
    requires none_before { found_below (offends page.now) (header_place 0) ≡ None }
    ensures { result ≡ found_below (offends page.now) (header_place n) }
{
    let mut elements: u16 = 0;
    for t in 0..n {
        let e = header_on(page, t);
        elements += e[1] as u16;
        let k = bits::first_of(
            Kind::is_served(e[0]),
            (e[1] <= limits::MOST_IN_TYPE) & (elements <= limits::MOST_ELEMENTS),
            e[2] == 0,
            e[3] as u16 <= limits::MOST_TEXT,
        );
        if k < 4 {
            return Some(writing::header_place(t) + k as u32);
        }
    }
    None
}

fn text_offends(b: u8) -> bool
    ensures { result ≡ text_offends b }
{
    !bits::is_printable(b)
}

// The first of n bytes. The texts start at `from`, and nothing before them offends.
fn texts_offence(page: &[u8], from: u32, n: u32) -> Option<u32>
    requires from_value { from ≡ header_place (types_on page.now) }
    requires n_in_bounds { n ≤ length page.now }
    requires from_le_n { from ≤ n }
    requires none_before { found_below (offends page.now) from ≡ None }
    ensures { result ≡ found_below (offends page.now) n }
{
    for k in from..n {
        if text_offends(bits::byte_at(page, k)) {
            return Some(k);
        }
    }
    None
}

// The first offending byte of n.
fn first_offence(page: &[u8], n: u32) -> Option<u32>
    requires page_bound { header_place (types_on page.now) ≤ n }
    requires n_in_bounds { n ≤ length page.now }
    ensures { result ≡ found_below (offends page.now) n }
{
    if let Some(k) = fixed_offence(page) {
        return Some(k);
    }
    let types = types_on(page);
    if let Some(k) = headers_offence(page, types) {
        return Some(k);
    }
    texts_offence(page, writing::header_place(types), n)
}

// The bytes before the headers, or those up to the end of them.
fn test_room(page: &[u8], n: u32) -> Result<(), Refusal>
    ensures { result ≡ room_tested page.now n }
{
    if page.len() < n as usize {
        return Err(Refusal::NeededLength);
    }
    Ok(())
}

// The length that the type list needs, which is known once all headers are there.
fn test_length(page: &[u8]) -> Result<(), Refusal>
    ensures { result ≡ length_tested page.now (needed_length page.now) }
{
    let fixed = test_room(page, writing::FIRST_HEADER);
    let Ok(()) = fixed else {
        return fixed;
    };
    let headers = test_room(page, writing::header_place(types_on(page)));
    let Ok(()) = headers else {
        return headers;
    };
    header::test_length(page, needed_length(page))
}

// The page's own tests.
fn test_bytes(page: &[u8]) -> Result<(), PageRefusal>
    requires page_value { length_said page.now ≡ true }
    requires page_len { length page.now ≡ needed_length page.now }
    ensures { result ≡ bytes_tested page.now }
{
    match first_offence(page, page.len() as u32) {
        Some(k) => refusals::not_allowed(k),
        None => Ok(()),
    }
}

pub fn test(page: &[u8]) -> Result<(), PageRefusal>
    ensures { result ≡ configuration_read page.now }
{
    let frame = header::test_frame(page, writing::CODE);
    let Ok(()) = frame else {
        return refusals::of_page(frame);
    };
    let length = test_length(page);
    let Ok(()) = length else {
        return refusals::of_page(length);
    };
    test_bytes(page)
}

// What a configuration has of type t before its text; zeros past the last type.
fn head_told(page: &[u8], t: u16) -> [u8; 4]
    requires { header_place (types_on page.now) ≤ length page.now }
    ensures { result ≡ head_told page.now t }
{
    if t < types_on(page) {
        let e = header_on(page, t);
        [e[0], e[1], e[3], 0]
    } else {
        [0, 0, 0, 0]
    }
}

// Puts type t, whose text starts here, and tells how long that is.
fn put_type(page: &[u8], t: u16, start: u32, configuration: &mut [u8]) -> u32
    requires page_value { configuration_read page.now ≡ Ok tt }
    requires t_lt_most_types { t < most_types }
    requires start_value { start ≡ told_start page.now t }
    requires has_types { HasTypes configuration.old }
    ensures value { result ≡ told_byte page.now 3 t }
    ensures configuration_after { configuration.new ≡ put_bytes configuration.old (type_place t) (type_told page.now t) }
{
    let head = head_told(page, t);
    let bytes = head[2] as u32;
    let text = texts::padded(page, start, bytes);
    bits::put_four(configuration, limits::type_place(t), head);
    bits::copy(
        &text,
        0,
        configuration,
        limits::text_place(t),
        limits::MOST_TEXT as u32,
    );
    bytes
}

fn put_types(page: &[u8], configuration: &mut [u8])
    requires page_value { configuration_read page.now ≡ Ok tt }
    requires has_types { HasTypes configuration.old }
    ensures { configuration.new ≡ rows_put type_place (type_told page.now) configuration.old most_types }
{
    let mut start = writing::header_place(types_on(page));
    for t in 0..limits::MOST_TYPES {
        start += put_type(page, t, start, configuration);
    }
}

// The configuration that an accepted page tells.
fn hand_over(page: &[u8], configuration: &mut [u8])
    requires page_value { configuration_read page.now ≡ Ok tt }
    requires configuration_len { length configuration.old ≡ element_place 0 }
    ensures { configuration.new ≡ placed (configuration_of page.now) configuration.old }
{
    let types = [bits::byte_at(page, TYPES), 0, 0, 0];
    bits::put_four(configuration, limits::GENERATION, bits::four_at(page, 4));
    bits::copy(
        page,
        12,
        configuration,
        limits::LOGICAL_IDENTIFIER,
        writing::DESCRIPTOR as u32,
    );
    bits::put_four(configuration, limits::TYPES, types);
    put_types(page, configuration);
}

pub fn read(page: &[u8], configuration: &mut [u8; limits::CONFIGURATION]) -> Result<(), PageRefusal>
    ensures { HandsBack (configuration_read page.now) (configuration_of page.now) configuration.old result configuration.new }
{
    let tested = test(page);
    let Ok(()) = tested else {
        return tested;
    };
    hand_over(page, configuration);
    tested
}
