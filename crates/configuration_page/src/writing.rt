// The configuration page, written. A shelf block and a configuration have the same front, so either can be lent.
//
// A caller has opened it before, so that nothing of it is tested again.
ghost use Rattle.std.specs.Prelude.{◌≡◌, ◌≤◌, length, Ok};
ghost use Rattle.bits.specs.Places.{fours_put};
ghost use Rattle.bits.specs.Rows.{rows_put};
ghost use Rattle.refusals.specs.Outcomes.{placed, WritesPage};
ghost use Rattle.shelf.specs.Limits.{most_types, HasTypes};
ghost use Rattle.shelf.specs.Types.{types_of};
ghost use Rattle.shelf_formed.specs.Formed.{HasFront};
ghost use Rattle.configuration_page.specs.Page.{header_place, type_header, text_of, text_start, configuration_length, fixed_part, configuration_page};

use refusals::Refusal;
use shelf::{limits, types};

pub const CODE: u8 = 0x01;

// Process 1 of 1.
pub const PROCESS: u8 = 0x11;

// How many identification bytes follow.
pub const DESCRIPTOR: u8 = 0x24;

pub const FIRST_HEADER: u32 = 48;

// Where the four bytes of type t stand.
pub fn header_place(t: u16) -> u32
    ensures { result ≡ header_place t }
{
    FIRST_HEADER + 4 * t as u32
}

// How many bytes the page has: the texts stand behind all headers.
fn length(front: &[u8]) -> u32
    requires { HasFront front.now }
    ensures { result ≡ configuration_length front.now }
{
    let n = types::count(front);
    let mut bytes = header_place(n);
    for t in 0..n {
        bytes += types::text_length(front, t) as u32;
    }
    bytes
}

// The part before the headers; n bytes follow the first four of the page.
fn put_fixed(front: &[u8], n: u32, out: &mut [u8])
    requires has_types { HasTypes front.now }
    requires header_place_in_bounds { header_place 0 ≤ length out.old }
    ensures { out.new ≡ placed (fixed_part front.now n) out.old }
{
    let said = bits::four_of(n);
    let first = [CODE, 0, said[2], said[3]];
    let third = [PROCESS, 0, bits::byte_at(front, limits::TYPES), DESCRIPTOR];
    bits::put_four(out, 0, first);
    bits::put_four(out, 4, bits::four_at(front, limits::GENERATION));
    bits::put_four(out, 8, third);
    bits::copy(
        front,
        limits::LOGICAL_IDENTIFIER,
        out,
        12,
        DESCRIPTOR as u32,
    );
}

fn put_headers(front: &[u8], n: u16, out: &mut [u8])
    requires has_types { HasTypes front.now }
    requires n_le_most_types { n ≤ most_types }
    requires n_in_bounds { header_place n ≤ length out.old }
    ensures { out.new ≡ fours_put header_place (type_header front.now) out.old n }
{
    for t in 0..n {
        let header = [
            types::code_of(front, t),
            types::elements_of(front, t),
            0,
            types::text_length(front, t),
        ];
        bits::put_four(out, header_place(t), header);
    }
}

// Each text behind the one before it.
fn put_texts(front: &[u8], n: u16, out: &mut [u8])
    requires has_front { HasFront front.now }
    requires n_value { n ≡ types_of front.now }
    requires front_in_bounds { configuration_length front.now ≤ length out.old }
    ensures { out.new ≡ rows_put (text_start front.now) (text_of front.now) out.old n }
{
    let mut at = header_place(n);
    for t in 0..n {
        let bytes = types::text_length(front, t) as u32;
        bits::copy(front, limits::text_place(t), out, at, bytes);
        at += bytes;
    }
}

// The page into an output buffer that holds it.
fn put(front: &[u8], bytes: u32, out: &mut [u8])
    requires has_front { HasFront front.now }
    requires bytes_value { bytes ≡ configuration_length front.now }
    requires bytes_in_bounds { bytes ≤ length out.old }
    ensures { out.new ≡ placed (configuration_page front.now) out.old }
{
    let n = types::count(front);
    put_fixed(front, bytes - 4, out);
    put_headers(front, n, out);
    put_texts(front, n, out);
}

pub fn write(front: &[u8], out: &mut [u8]) -> Result<u32, Refusal>
    requires { HasFront front.now }
    ensures { WritesPage (Ok tt) (configuration_page front.now) out.old result out.new }
{
    let bytes = length(front);
    let fit = refusals::fit(bytes, out.len());
    let Ok(_) = fit else {
        return fit;
    };
    put(front, bytes, out);
    fit
}
