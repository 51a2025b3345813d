// The page of n names that stand in a block or a record, 32 bytes for each.
ghost use Rattle.std.specs.Prelude.{◌≡◌, ◌+◌, ◌*◌, ◌≤◌, length, Ok};
ghost use Rattle.bits.specs.Rows.{put_bytes, rows_put};
ghost use Rattle.refusals.specs.Outcomes.{placed, WritesPage};
ghost use Rattle.shelf.specs.Limits.{most_elements, most_text, element_place, HasTypes};
ghost use Rattle.page.specs.Header.{shelf_tested};
ghost use Rattle.names.specs.Name.{name_at, name_in};
ghost use Rattle.descriptor_page.specs.Page.{descriptor, start_of, descriptor_page, names_page, HasNames};

use names::name;
use page::header;
use refusals::Refusal;
use shelf::limits;

pub const CODE: u8 = 0x07;

pub const FIRST: u32 = 8;

// Where name i stands, of those from `first` on.
pub fn name_at(first: u32, i: u16) -> u32
    requires { first ≤ element_place most_elements }
    ensures { result ≡ first + most_text * i }
{
    first + limits::MOST_TEXT as u32 * i as u32
}

// How many bytes the page has.
fn length(names: &[u8], first: u32, n: u16) -> u32
    requires { HasNames names.now first n }
    ensures { result ≡ start_of (name_in names.now first) n }
{
    let mut bytes = FIRST;
    for i in 0..n {
        bytes += 4 + name::length_at(names, name_at(first, i));
    }
    bytes
}

// Puts the descriptor of the name at a place, and tells how long it is.
fn put_descriptor(names: &[u8], at: u32, out: &mut [u8], place: u32) -> u32
    requires most_text_in_bounds { at + most_text ≤ length names.now }
    requires at_in_bounds { place + length (descriptor (name_at names.now at)) ≤ length out.old }
    requires place_bound { place ≤ 65536 }
    ensures value { result ≡ 4 + length (name_at names.now at) }
    ensures out_after { out.new ≡ put_bytes out.old place (descriptor (name_at names.now at)) }
{
    let bytes = name::length_at(names, at);
    let head = bits::four_of(bytes);
    bits::put_four(out, place, head);
    bits::copy(names, at, out, place + 4, bytes);
    4 + bytes
}

// Each behind the one before it.
fn put_descriptors(names: &[u8], first: u32, n: u16, out: &mut [u8])
    requires has_names { HasNames names.now first n }
    requires n_in_bounds { start_of (name_in names.now first) n ≤ length out.old }
    ensures { out.new ≡ rows_put (start_of (name_in names.now first)) (λ i. descriptor (name_in names.now first i)) out.old n }
{
    let mut place = FIRST;
    for i in 0..n {
        place += put_descriptor(names, name_at(first, i), out, place);
    }
}

// A page of so many bytes into an output buffer that holds it.
fn put(configuration: &[u8], names: &[u8], first: u32, n: u16, bytes: u32, out: &mut [u8])
    requires has_types { HasTypes configuration.now }
    requires has_names { HasNames names.now first n }
    requires bytes_value { bytes ≡ start_of (name_in names.now first) n }
    requires bytes_in_bounds { bytes ≤ length out.old }
    ensures { out.new ≡ placed (descriptor_page configuration.now (name_in names.now first) n) out.old }
{
    header::put_of(configuration, out, CODE, 0, bytes);
    put_descriptors(names, first, n, out);
}

// The page of n names from `first` on, so many bytes, for the generation of a configuration.
pub fn write(
    configuration: &[u8],
    names: &[u8],
    first: u32,
    n: u16,
    bytes: u32,
    out: &mut [u8],
) -> Result<u32, Refusal>
    requires has_types { HasTypes configuration.now }
    requires has_names { HasNames names.now first n }
    requires bytes_value { bytes ≡ start_of (name_in names.now first) n }
    ensures { WritesPage (Ok tt) (descriptor_page configuration.now (name_in names.now first) n) out.old result out.new }
{
    let fit = refusals::fit(bytes, out.len());
    let Ok(_) = fit else {
        return fit;
    };
    put(configuration, names, first, n, bytes, out);
    fit
}

// The page of a shelf.
pub fn write_shelf(shelf: &[u8], out: &mut [u8]) -> Result<u32, Refusal>
    ensures { WritesPage (shelf_tested shelf.now) (names_page shelf.now) out.old result out.new }
{
    let opened = shelf_formed::open_shelf(shelf);
    let Some(sizes) = opened else {
        return Err(Refusal::ShelfNotWellFormed);
    };
    let first = limits::element_place(sizes.elements);
    let n = sizes.types + sizes.elements;
    write(shelf, shelf, first, n, length(shelf, first, n), out)
}
