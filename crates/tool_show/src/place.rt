// What stands at a byte of a page: bits of the page itself, or a byte of an element or of its descriptor.
ghost use Rattle.std.specs.Prelude.{◌≡◌, ◌+◌, ◌<◌, ◌≤◌};
ghost use Rattle.bits.specs.Bits.{num};
ghost use Rattle.shelf_formed.specs.Formed.{HasFront};
ghost use Rattle.page.specs.Slots.{slots_of, slot_run};

use crate::words;
use page::slots;
use page::slots::SlotRun;
use shelf::limits;
use std::io;

// Behind the head of every page for a shelf.
const FIRST: u32 = 8;

// On a page that acts.
pub fn tell(rt: &impl Print, shelf: &[u8], at: u32) -> io::Result<()> {
    say_byte(rt, at)?;
    if FIRST <= at {
        let k = at - FIRST;
        say_element(rt, shelf, k / 4)?;
        print!(rt; ", byte {}", k % 4)?;
    }
    rt.print("\n")
}

// On a page of names.
pub fn tell_on_names(rt: &impl Print, shelf: &[u8], page: &[u8], at: u32) -> io::Result<()> {
    say_byte(rt, at)?;
    if FIRST <= at {
        let spot = spot_of(page, at);
        say_element(rt, shelf, spot.descriptor as u32)?;
        say_part(rt, spot.byte)?;
    }
    rt.print("\n")
}

// Of the head only byte 1 can offend.
fn say_byte(rt: &impl Print, at: u32) -> io::Result<()> {
    print!(rt; "byte {at}")?;
    if at < FIRST {
        rt.print(": reserved bits of the page itself")?;
    }
    Ok(())
}

// A byte of a descriptor, counted from its start.
#[derive(Drop)]
struct Spot {
    descriptor: u16,
    byte: u32,
}

// The byte at a place is one of the first descriptor that ends behind it.
fn spot_of(page: &[u8], at: u32) -> Spot
    requires { 8 ≤ at }
{
    let mut start = FIRST;
    for descriptor in 0..limits::MOST_SLOTS {
        let end = start + 4 + declared(page, start);
        if at < end {
            return Spot {
                descriptor,
                byte: at - start,
            };
        }
        start = end;
    }
    Spot {
        descriptor: limits::MOST_SLOTS,
        byte: 0,
    }
}

// How long a text the descriptor declares that starts here, if it stands on the page.
fn declared(page: &[u8], start: u32) -> u32
    requires { start ≤ 16777216 }
    ensures { result ≤ 65535 }
{
    if start as usize + 4 <= page.len() {
        bits::big16_at(page, start + 2) as u32
    } else {
        0
    }
}

// Byte k of a descriptor.
fn say_part(rt: &impl Print, k: u32) -> io::Result<()> {
    match k {
        0 | 1 => print!(rt; ", reserved byte {k}"),
        2 | 3 => rt.print(", length of the name"),
        _ => print!(rt; ", byte {} of the name", k - 4),
    }
}

// After a colon, the element that slot i is for, if there are so many.
fn say_element(rt: &impl Print, shelf: &[u8], i: u32) -> io::Result<()> {
    let counted = page::testing::shelf_slots(shelf);
    let Ok(n) = counted else {
        return Ok(());
    };
    if i < n as u32 {
        rt.print(": ")?;
        say_slot(rt, run_of(shelf, i as u16), i as u16)?;
    }
    Ok(())
}

// The type of slot i.
fn run_of(shelf: &[u8], i: u16) -> SlotRun
    requires has_front { HasFront shelf.now }
    requires i_bound { i < slots_of shelf.now }
    ensures { result ≡ slot_run shelf.now i }
{
    let mut run = slots::run_to(shelf, slots::first_run(), 0);
    for j in 0..i {
        run = slots::run_to(shelf, run, j + 1);
    }
    run
}

// An element is told by its number, which goes on over all types; an overall element by that of its type, which may occur twice.
pub fn say_slot(rt: &impl Print, run: SlotRun, i: u16) -> io::Result<()>
    requires le_types { 1 ≤ run.types }
    requires i_lt_end { i < run.end }
    requires types_bound { run.types ≤ i + num run.overall }
{
    let slot = slots::slot_in(run, i);
    let kind = words::kind_name(slot.kind);
    if slot.overall {
        print!(rt; "{kind}, overall element of type {}", run.types - 1)
    } else {
        print!(rt; "{kind}, element {}", slot.first)
    }
}
