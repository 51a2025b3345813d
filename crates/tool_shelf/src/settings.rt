// The settings that a shelf stores, in the form of a wanted list: four bytes for each element.
ghost use Rattle.std.specs.Prelude.{◌*◌, ◌≤◌, length};
ghost use Rattle.shelf.specs.Limits.{element_place};

use shelf::{elements, limits};
use std::io;

// The list of a well-formed shelf, in hexadecimal.
pub fn show(rt: &impl Print, shelf: &[u8]) -> io::Result<()> {
    let mut list = [0u8; limits::LONGEST_WANTED_LIST];
    let n = put(shelf, &mut list);
    tool_print::hex_lines(rt, &list[..4 * n as usize])
}

// Puts the records of a well-formed shelf, where there is room for all, and tells how many.
pub fn put(shelf: &[u8], list: &mut [u8]) -> u16
    ensures { 4 * result ≤ length list.new }
{
    let opened = shelf_formed::open_shelf(shelf);
    let Some(sizes) = opened else {
        return 0;
    };
    let n = sizes.elements;
    if 4 * n as usize <= list.len() {
        put_records(shelf, list, n);
        n
    } else {
        0
    }
}

fn put_records(shelf: &[u8], list: &mut [u8], n: u16)
    requires n_in_shelf { element_place n ≤ length shelf.now }
    requires n_in_list { 4 * n ≤ length list.old }
{
    for j in 0..n {
        bits::put_four(list, 4 * j as u32, elements::settings_at(shelf, j));
    }
}
