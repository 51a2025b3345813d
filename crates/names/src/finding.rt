// The element whose name equals a given text: the first in order, or nothing.
ghost use Rattle.std.specs.Prelude.{◌≡◌, true, ◌≤◌, length};
ghost use Rattle.shelf.specs.Limits.{most_text};
ghost use Rattle.shelf.specs.Types.{types_of, elements_of};
ghost use Rattle.shelf_formed.specs.Formed.{well_formed};
ghost use Rattle.names.specs.Found.{first_named, found_at, found, element_found};

use crate::name;
use refusals::Refusal;
use shelf::{limits, types};
use shelf_formed::Sizes;

// The number that tells of no element.
const NO_ELEMENT: u32 = 0xffff_ffff;

// Of n elements the search stopped at j.
fn found_at(j: u16, n: u16) -> Result<Option<u32>, Refusal>
    ensures { result ≡ found_at j n }
{
    if j < n { Ok(Some(j as u32)) } else { Ok(None) }
}

// The number of the element found, or the one that tells of none.
pub fn element(found: Result<Option<u32>, Refusal>) -> u32
    ensures { result ≡ element_found found }
{
    match found {
        Ok(Some(j)) => j,
        Ok(None) | Err(_) => NO_ELEMENT,
    }
}

// The first element with this name, or the number of elements. Behind the overall name of its type stand the names of a type's elements.
fn first_named(shelf: &[u8], text: &[u8], sizes: Sizes) -> u16
    requires shelf_value { well_formed shelf.now ≡ true }
    requires types_value { sizes.types ≡ types_of shelf.now }
    requires elements_value { sizes.elements ≡ elements_of shelf.now }
    requires text_len_bound { length text.now ≤ most_text }
    ensures { result ≡ first_named shelf.now text.now }
{
    let mut j: u16 = 0;
    // The number of the element goes on over the types, so that the inner loop is no `for`.
    'search: for t in 0..sizes.types {
        let end = j + types::elements_of(shelf, t) as u16;
        while j < end {
            if name::equals(shelf, limits::name_place(sizes.elements, j + t + 1), text) {
                break 'search;
            }
            j += 1;
        }
    }
    j
}

pub fn find(shelf: &[u8], text: &[u8]) -> Result<Option<u32>, Refusal>
    ensures { result ≡ found shelf.now text.now }
{
    let opened = shelf_formed::open_shelf(shelf);
    let Some(sizes) = opened else {
        return Err(Refusal::ShelfNotWellFormed);
    };
    if text.len() > limits::MOST_TEXT as usize {
        return Ok(None);
    }
    found_at(first_named(shelf, text, sizes), sizes.elements)
}
