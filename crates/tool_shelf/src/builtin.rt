// A shelf to show where no file is named.
//
// Its places are written out as docs/LAYOUT.md has them, and not taken from the crates that read them: so the two are
// held against each other.
ghost use Rattle.std.specs.Prelude.{◌+◌, ◌≤◌, length};

pub const ELEMENTS: u16 = 10;

// 332 bytes, 16 for each element, and 32 for the name of each of five overall and ten individual elements.
pub const LENGTH: usize = 972;

// Its wanted list: 4 bytes for each of ten elements.
pub const WANTED_LENGTH: usize = 40;

// Its control page: 8 bytes, and 4 for each of five types and ten elements.
pub const CONTROL_LENGTH: usize = 68;

pub fn shelf() -> [u8; LENGTH] {
    let mut s = [0u8; LENGTH];
    put_head(&mut s);
    put_types(&mut s);
    put_fans(&mut s);
    put_temperatures(&mut s);
    put_rails(&mut s);
    put_loads(&mut s);
    put_names(&mut s);
    s
}

fn put(s: &mut [u8; LENGTH], at: usize, part: &[u8])
    requires { at + length part.now ≤ 972 }
{
    s[at..at + part.len()].copy_from_slice(part);
}

// Generation code 7; logical identifier, vendor, product and revision; five types.
fn put_head(s: &mut [u8; LENGTH]) {
    put(s, 0, b"\x00\x00\x00\x07");
    put(s, 4, b"\x50\x00\xc5\x00\x00\x00\x00\x07");
    put(s, 12, b"LENUKARO");
    put(s, 20, b"Cooled shelf 12 ");
    put(s, 36, b"1.00");
    put(s, 40, b"\x05");
}

// Element type, number of elements, length of the text, zero; then the text.
fn put_types(s: &mut [u8; LENGTH]) {
    put(s, 44, b"\x03\x03\x03\x00Fan");
    put(s, 80, b"\x04\x03\x03\x00Air");
    put(s, 116, b"\x12\x00\x08\x005 V rail");
    put(s, 152, b"\x12\x02\x09\x0012 V rail");
    put(s, 188, b"\x13\x02\x09\x0012 V load");
}

// Settings, no thresholds, reading. ON and SPEED 3, 120; IDENT, FAIL and SPEED 5, not ON, 0; PRDFAIL, ON and SPEED 6,
// 1,330 (0532h).
fn put_fans(s: &mut [u8; LENGTH]) {
    put(s, 332, &[0, 0, 0, 0x23, 0, 0, 0, 0, 0, 120]);
    put(s, 348, &[0, 0x80, 0, 0x45, 0, 0, 0, 0, 0, 0]);
    put(s, 364, &[0x40, 0, 0, 0x26, 0, 0, 0, 0, 5, 0x32]);
}

// Settings, thresholds, reading. The second has no reading; the third has DISABLED and FAIL, and is above its high
// warning.
fn put_temperatures(s: &mut [u8; LENGTH]) {
    put(s, 380, &[0, 0, 0, 0, 75, 65, 25, 20, 0, 45]);
    put(s, 396, &[0, 0, 0, 0, 85, 70, 30, 12, 0, 0]);
    put(s, 412, &[0x20, 0x40, 0, 0, 90, 65, 0, 10, 0, 66]);
}

// Settings, thresholds, reading, nominal. 1,321 (0529h) of 1,200 (04b0h) is just above the high critical limit; 1,145
// (0479h), with IDENT, just below the low warning.
fn put_rails(s: &mut [u8; LENGTH]) {
    put(s, 428, &[0, 0, 0, 0, 20, 12, 7, 18, 5, 0x29, 4, 0xb0]);
    put(s, 444, &[0, 0x80, 0, 0, 25, 15, 9, 12, 4, 0x79, 4, 0xb0]);
}

// The same for -125 (ff83h) of 500 (01f4h), with SWAP, and for 538 (021ah), with PRDFAIL, just above the high warning.
fn put_loads(s: &mut [u8; LENGTH]) {
    put(s, 460, &[0x10, 0, 0, 0, 40, 20, 0, 0, 0xff, 0x83, 1, 0xf4]);
    put(s, 476, &[0x40, 0, 0, 0, 45, 15, 0, 0, 2, 0x1a, 1, 0xf4]);
}

// For each type the name of its overall element, then those of its elements: of the fans; of the temperatures, whose overall element
// and second have none, and the third has the longest; of the type without elements; of the voltages, and of the currents, which bear
// the same two names.
fn put_names(s: &mut [u8; LENGTH]) {
    put(s, 492, b"Rear fans");
    put(s, 524, b"Fan rear left");
    put(s, 556, b"Fan rear middle");
    put(s, 588, b"Fan rear right");
    put(s, 652, b"Air inlet");
    put(s, 716, b"Air outlet behind the drive cage");
    put(s, 748, b"Not fitted");
    put(s, 780, b"12 V rails");
    put(s, 812, b"Supply A");
    put(s, 844, b"Supply B");
    put(s, 876, b"12 V loads");
    put(s, 908, b"Supply A");
    put(s, 940, b"Supply B");
}
