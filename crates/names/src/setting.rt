// One name set.
ghost use Rattle.std.specs.Prelude.{◌≡◌, true, ◌<◌};
ghost use Rattle.refusals.specs.Outcomes.{Changes};
ghost use Rattle.shelf.specs.Types.{elements_of};
ghost use Rattle.shelf_formed.specs.Formed.{well_formed};
ghost use Rattle.page.specs.Slots.{slots_of};
ghost use Rattle.names.specs.Name.{is_name};
ghost use Rattle.names.specs.Setting.{number_tested, name_set, element_tested, element_named, overall_tested, overall_named};

use crate::name;
use refusals::Refusal;
use shelf::{limits, texts, types};

// What is tested behind the shelf: a number below n, and a text that is a name.
fn test(number: u32, n: u16, text: &[u8]) -> Result<(), Refusal>
    ensures { result ≡ number_tested number n text.now }
{
    if n as u32 <= number {
        return Err(Refusal::NoSuchElement);
    }
    if !name::is_name(text) {
        return Err(Refusal::NotAllowed);
    }
    Ok(())
}

// The name of slot i, of a shelf of n elements.
fn put(shelf: &mut [u8], n: u16, i: u16, text: &[u8])
    requires shelf_value { well_formed shelf.old ≡ true }
    requires n_value { n ≡ elements_of shelf.old }
    requires i_bound { i < slots_of shelf.old }
    requires text_value { is_name text.now ≡ true }
    ensures { shelf.new ≡ name_set shelf.old i text.now }
{
    let room = texts::padded(text, 0, text.len() as u32);
    bits::copy(
        &room,
        0,
        shelf,
        limits::name_place(n, i),
        limits::MOST_TEXT as u32,
    );
}

// Of element j.
pub fn of_element(shelf: &mut [u8], j: u32, text: &[u8]) -> Result<(), Refusal>
    ensures { Changes (element_tested shelf.old j text.now) (element_named shelf.old j text.now) result shelf.new }
{
    let opened = shelf_formed::open_shelf(shelf);
    let Some(sizes) = opened else {
        return Err(Refusal::ShelfNotWellFormed);
    };
    let tested = test(j, sizes.elements, text);
    let Ok(()) = tested else {
        return tested;
    };
    let run = types::run_of(shelf, j as u16);
    put(
        shelf,
        sizes.elements,
        j as u16 + run.number as u16 + 1,
        text,
    );
    tested
}

// Of the overall element of type t.
pub fn of_overall(shelf: &mut [u8], t: u32, text: &[u8]) -> Result<(), Refusal>
    ensures { Changes (overall_tested shelf.old t text.now) (overall_named shelf.old t text.now) result shelf.new }
{
    let opened = shelf_formed::open_shelf(shelf);
    let Some(sizes) = opened else {
        return Err(Refusal::ShelfNotWellFormed);
    };
    let tested = test(t, sizes.types, text);
    let Ok(()) = tested else {
        return tested;
    };
    let before = types::elements_before(shelf, t as u16);
    put(shelf, sizes.elements, before + t as u16, text);
    tested
}
