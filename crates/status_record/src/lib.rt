// A status record: what a reader hands back. Two page bits, the number of entries, and an entry of 16 bytes for each slot of the page.
#![tactic(auto)]

ghost use Rattle.std.specs.Prelude.{◌≡◌, ◌≤◌, length};
ghost use Rattle.status_record.specs.Entries.{entry_place, HasEntry, entry_put, entry_at, head_put, bits_at, bits_formed};

use shelf::limits;
use shelf_status::PageBits;

// A record has room for an entry of each slot.
pub const LENGTH: usize = 4 + element_status::ENTRY * limits::MOST_SLOTS as usize;

fn entry_place(i: u16) -> u32
    ensures { result ≡ entry_place i }
{
    4 + 16 * i as u32
}

pub fn put_entry(fields: &mut [u8], i: u16, x: [u8; element_status::ENTRY])
    requires { HasEntry fields.old i }
    ensures { fields.new ≡ entry_put fields.old i x }
{
    bits::copy(&x, 0, fields, entry_place(i), element_status::ENTRY as u32);
}

pub fn entry_at(fields: &[u8], i: u16) -> [u8; element_status::ENTRY]
    requires { HasEntry fields.now i }
    ensures { result ≡ entry_at fields.now i }
{
    let mut x = [0; element_status::ENTRY];
    bits::copy(
        fields,
        entry_place(i),
        &mut x,
        0,
        element_status::ENTRY as u32,
    );
    x
}

// The page bits and the number of entries.
pub fn put_head(fields: &mut [u8], flags: PageBits, n: u16)
    requires { 4 ≤ length fields.old }
    ensures { fields.new ≡ head_put fields.old flags n }
{
    record_head::put(fields, flags.noncritical as u8, flags.critical as u8, n);
}

pub fn bits_at(fields: &[u8]) -> PageBits
    requires { 4 ≤ length fields.now }
    ensures { result ≡ bits_at fields.now }
{
    let e = bits::four_at(fields, 0);
    PageBits {
        noncritical: e[0] == 1,
        critical: e[1] == 1,
    }
}

pub fn bits_formed(fields: &[u8]) -> bool
    requires { 4 ≤ length fields.now }
    ensures { result ≡ bits_formed fields.now }
{
    let e = bits::four_at(fields, 0);
    (e[0] <= 1) & (e[1] <= 1)
}
