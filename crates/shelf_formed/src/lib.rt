// Whether a block is a well-formed shelf, or the front of one a configuration.
#![tactic(auto)]

ghost use Rattle.std.specs.Prelude.{◌≡◌, true, ◌≤◌, length};
ghost use Rattle.bits.specs.Choice.{all_below};
ghost use Rattle.shelf.specs.Limits.{most_text, element_place, HasTypes, HasText, HasElement};
ghost use Rattle.shelf.specs.Types.{text_length, run_at, kind_at};
ghost use Rattle.shelf_formed.specs.Formed.{head_formed, text_byte_formed, text_formed, type_formed, type_empty, slot_formed, types_formed, spare_clear, element_formed, elements_formed, fronted, front_opened, block_opened, elements_opened, opened, configuration_opened};

use element::types::Kind;
use shelf::{elements, limits, types, walk};

// How many types and elements a well-formed shelf has.
#[derive(Clone, Copy)]
pub struct Sizes {
    pub types: u16,
    pub elements: u16,
}

pub fn open_shelf(shelf: &[u8]) -> Option<Sizes>
    ensures { result ≡ opened shelf.now }
{
    let sizes = open_front(shelf)?;
    open_elements(shelf, sizes)
}

// A block that has the bytes of a front.
fn open_front(shelf: &[u8]) -> Option<Sizes>
    ensures { result ≡ front_opened shelf.now }
{
    if limits::CONFIGURATION <= shelf.len() {
        front(shelf)
    } else {
        None
    }
}

// The elements behind a front of these sizes.
fn open_elements(shelf: &[u8], sizes: Sizes) -> Option<Sizes>
    ensures { result ≡ elements_opened shelf.now sizes }
{
    open_block(shelf, sizes)?;
    if elements_formed(shelf, sizes.elements) {
        Some(sizes)
    } else {
        None
    }
}

// The block has just the bytes that they and their names need.
fn open_block(shelf: &[u8], sizes: Sizes) -> Option<Sizes>
    ensures { result ≡ block_opened shelf.now sizes }
{
    if shelf.len() == limits::block_length(sizes.types, sizes.elements) {
        Some(sizes)
    } else {
        None
    }
}

// A configuration is the front of a shelf block, without its elements.
pub fn open_configuration(configuration: &[u8]) -> Option<Sizes>
    ensures { result ≡ configuration_opened configuration.now }
{
    if configuration.len() == limits::CONFIGURATION {
        front(configuration)
    } else {
        None
    }
}

// What a configuration tells is well formed, whatever stands behind it.
fn front(shelf: &[u8]) -> Option<Sizes>
    requires { HasTypes shelf.now }
    ensures { result ≡ fronted shelf.now }
{
    let types = types::count(shelf);
    let elements = types::all_elements(shelf);
    if head_formed(shelf) & types_formed(shelf, types) & (elements <= limits::MOST_ELEMENTS) {
        Some(Sizes { types, elements })
    } else {
        None
    }
}

// There is a type, there are not too many, and the three bytes after their number are zero.
fn head_formed(shelf: &[u8]) -> bool
    requires { HasTypes shelf.now }
    ensures { result ≡ head_formed shelf.now }
{
    let e = bits::four_at(shelf, limits::TYPES);
    (1 <= e[0]) & (e[0] as u16 <= limits::MOST_TYPES) & (e[1] == 0) & (e[2] == 0) & (e[3] == 0)
}

// The text of type t, n bytes long, is printable.
fn text_printable(shelf: &[u8], t: u16, n: u16) -> bool
    requires has_text { HasText shelf.now t }
    requires n_le_most_text { n ≤ most_text }
    requires n_value { n ≡ text_length shelf.now t }
    ensures { result ≡ all_below (text_byte_formed shelf.now t) n }
{
    for i in 0..n {
        let b = bits::byte_at(shelf, limits::text_place(t) + i as u32);
        if !bits::is_printable(b) {
            return false;
        }
    }
    true
}

// Zeros stand after its end.
fn text_ended(shelf: &[u8], t: u16, n: u16) -> bool
    requires has_text { HasText shelf.now t }
    requires n_le_most_text { n ≤ most_text }
    requires n_value { n ≡ text_length shelf.now t }
    requires n_value_2 { all_below (text_byte_formed shelf.now t) n ≡ true }
    ensures { result ≡ text_formed shelf.now t }
{
    for i in n..limits::MOST_TEXT {
        if bits::byte_at(shelf, limits::text_place(t) + i as u32) != 0 {
            return false;
        }
    }
    true
}

fn text_formed(shelf: &[u8], t: u16, n: u16) -> bool
    requires has_text { HasText shelf.now t }
    requires n_le_most_text { n ≤ most_text }
    requires n_value { n ≡ text_length shelf.now t }
    ensures { result ≡ text_formed shelf.now t }
{
    if text_printable(shelf, t, n) {
        text_ended(shelf, t, n)
    } else {
        false
    }
}

fn type_formed(shelf: &[u8], t: u16) -> bool
    requires { HasText shelf.now t }
    ensures { result ≡ type_formed shelf.now t }
{
    let e = bits::four_at(shelf, limits::type_place(t));
    let n = e[2] as u16;
    if limits::MOST_TEXT < n {
        return false;
    }
    Kind::is_served(e[0]) & (e[1] <= limits::MOST_IN_TYPE) & (e[3] == 0) & text_formed(shelf, t, n)
}

// Past the last type all bytes are zero.
fn type_empty(shelf: &[u8], t: u16) -> bool
    requires { HasText shelf.now t }
    ensures { result ≡ type_empty shelf.now t }
{
    for i in 0..limits::TYPE_SIZE {
        if bits::byte_at(shelf, limits::type_place(t) + i as u32) != 0 {
            return false;
        }
    }
    true
}

fn slot_formed(shelf: &[u8], n: u16, t: u16) -> bool
    requires { HasText shelf.now t }
    ensures { result ≡ slot_formed shelf.now n t }
{
    if t < n {
        type_formed(shelf, t)
    } else {
        type_empty(shelf, t)
    }
}

fn types_formed(shelf: &[u8], n: u16) -> bool
    requires { HasTypes shelf.now }
    ensures { result ≡ types_formed shelf.now n }
{
    for t in 0..limits::MOST_TYPES {
        if !slot_formed(shelf, n, t) {
            return false;
        }
    }
    true
}

fn element_formed(shelf: &[u8], kind: Kind, j: u16) -> bool
    requires has_element { HasElement shelf.now j }
    requires kind_value { kind ≡ kind_at shelf.now j }
    ensures { result ≡ element_formed shelf.now j }
{
    if !spare_clear(shelf, j) {
        return false;
    }
    let e = elements::settings_at(shelf, j);
    let t = elements::thresholds_at(shelf, j);
    let reading = elements::reading_at(shelf, j);
    let nominal = elements::nominal_at(shelf, j);
    element_status::types::are_formed(kind, e, t, reading, nominal)
}

// The last four bytes of an element are zero.
fn spare_clear(shelf: &[u8], j: u16) -> bool
    requires { HasElement shelf.now j }
    ensures { result ≡ spare_clear shelf.now j }
{
    bits::big32_at(shelf, limits::element_place(j) + 12) == 0
}

fn elements_formed(shelf: &[u8], n: u16) -> bool
    requires { element_place n ≤ length shelf.now }
    ensures { result ≡ elements_formed shelf.now n }
{
    walk::all_hold(
        shelf,
        n,
        |run, j|
            requires has_element { HasElement shelf.now j }
            requires run_value { run ≡ run_at shelf.now j }
            ensures { result ≡ element_formed shelf.entry.now j }
        { element_formed(shelf, run.kind, j) },
    )
}
