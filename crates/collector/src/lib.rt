// A collector: the bytes of a page that comes in chunks, in a block that the caller lends. It has the count of the bytes that were put, and
// room for the largest page; bytes beyond that are counted and not kept. Any block of its length is one.
#![tactic(auto)]

ghost use Rattle.std.specs.Prelude.{◌≡◌, ◌≤◌, length};
ghost use Rattle.bits.specs.Rows.{bytes_at};
ghost use Rattle.collector.specs.Collector.{most_kept, room_place, HasRoom, at_most, count_of, counted, kept, collected, emptied};

use shelf::limits;

// The most that is kept, and the most that is counted: one more than a page can say, whose length field has two bytes.
pub const MOST_KEPT: u32 = limits::LONGEST_SLOT_PAGE as u32;

const MOST_COUNTED: u32 = 0xffff + 4 + 1;

// The count, then the room.
const ROOM: u32 = 4;

pub const LENGTH: usize = ROOM as usize + limits::LONGEST_SLOT_PAGE;

fn at_most(n: usize, most: u32) -> u32
    ensures { result ≡ at_most n most }
{
    n.min(most as usize) as u32
}

// A block that says more means the most.
pub fn count(collector: &[u8]) -> u32
    requires { HasRoom collector.now }
    ensures { result ≡ count_of collector.now }
{
    bits::big32_at(collector, 0).min(MOST_COUNTED)
}

// The first n bytes of the room.
pub fn first(collector: &[u8], n: u32) -> &[u8]
    requires has_room { HasRoom collector.now }
    requires n_le_most_kept { n ≤ most_kept }
    ensures { result.now ≡ bytes_at collector.now room_place n }
{
    let at = ROOM as usize;
    let end = at + n as usize;
    &collector[at..end]
}

fn put_count(collector: &mut [u8], n: u32)
    requires { HasRoom collector.old }
    ensures { collector.new ≡ counted collector.old n }
{
    bits::put_four(collector, 0, bits::four_of(n));
}

// Behind n bytes, what there is room for.
fn keep(collector: &mut [u8], n: u32, chunk: &[u8])
    requires { HasRoom collector.old }
    ensures { collector.new ≡ kept collector.old n chunk.now }
{
    if n < MOST_KEPT {
        let fits = at_most(chunk.len(), MOST_KEPT - n);
        bits::copy(chunk, 0, collector, ROOM + n, fits);
    }
}

pub fn put(collector: &mut [u8], chunk: &[u8])
    requires { HasRoom collector.old }
    ensures { collector.new ≡ collected collector.old chunk.now }
{
    let n = count(collector);
    keep(collector, n, chunk);
    put_count(collector, at_most(n as usize + chunk.len(), MOST_COUNTED));
}

// What stands in the room stays there, and counts no more.
pub fn empty(collector: &mut [u8])
    requires { HasRoom collector.old }
    ensures { collector.new ≡ emptied collector.old }
{
    put_count(collector, 0);
}
