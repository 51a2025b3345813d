// Names in words: those that a record of names has, each behind the element that it is of; and which element one was found at.
ghost use Rattle.std.specs.Prelude.{◌≡◌, ◌+◌, ◌<◌, ◌≤◌};
ghost use Rattle.bits.specs.Bits.{num};
ghost use Rattle.shelf.specs.Limits.{most_types, most_elements};
ghost use Rattle.shelf_formed.specs.Formed.{HasFront};
ghost use Rattle.page.specs.Slots.{slots_of};

use crate::{place, words};
use descriptor_page::writing;
use descriptor_record::reading;
use page::slots;
use page::slots::SlotRun;
use shelf::types;
use std::io;
use tool_print::Quoted;

// The record of a page for this shelf.
pub fn tell_record(rt: &impl Print, shelf: &[u8], names: &[u8; reading::LENGTH]) -> io::Result<()> {
    let counted = page::testing::shelf_slots(shelf);
    let Ok(n) = counted else {
        return Ok(());
    };
    tell_entries(rt, shelf, names, n)
}

fn tell_entries(
    rt: &impl Print,
    shelf: &[u8],
    names: &[u8; reading::LENGTH],
    n: u16,
) -> io::Result<()>
    requires has_front { HasFront shelf.now }
    requires n_value { n ≡ slots_of shelf.now }
{
    let mut run = slots::first_run();
    for i in 0..n {
        run = slots::run_to(shelf, run, i);
        tell_entry(rt, names, run, i)?;
    }
    Ok(())
}

fn tell_entry(
    rt: &impl Print,
    names: &[u8; reading::LENGTH],
    run: SlotRun,
    i: u16,
) -> io::Result<()>
    requires le_types { 1 ≤ run.types }
    requires i_lt_end { i < run.end }
    requires types_bound { run.types ≤ i + num run.overall }
    requires i_bound { i < most_types + most_elements }
{
    place::say_slot(rt, run, i)?;
    let at = writing::name_at(reading::FIRST_ENTRY, i);
    println!(rt; ": {}", Quoted(words::name_at(names, at)))
}

// Element j with its type, if there are so many.
pub fn tell_element(rt: &impl Print, shelf: &[u8], j: u32) -> io::Result<()> {
    let opened = shelf_formed::open_shelf(shelf);
    let Some(sizes) = opened else {
        return Ok(());
    };
    if j < sizes.elements as u32 {
        say_run(rt, types::run_of(shelf, j as u16), j)?;
    }
    Ok(())
}

fn say_run(rt: &impl Print, run: types::Run, j: u32) -> io::Result<()> {
    println!(rt;
        "element {j}: {}, type {}",
        words::kind_name(run.kind),
        run.number
    )
}
