// Bytes: the bits of one, the two halves of one, big-endian numbers, and lent bytes at any place.
//
// A caller shows that the bytes it reads or writes stand in the slice, so that nothing is tested here.
#![tactic(auto)]

ghost use Rattle.std.specs.Prelude.{◌≡◌, ◌+◌, ◌*◌, ◌<◌, ◌≤◌, get_or, length};
ghost use Rattle.bits.specs.Choice.{first_of};
ghost use Rattle.bits.specs.Bits.{within, nibble, join, printable};
ghost use Rattle.bits.specs.Places.{four_at, put_four, two_at};
ghost use Rattle.bits.specs.Numbers.{big, bytes};
ghost use Rattle.bits.specs.Masks.{first_outside};
ghost use Rattle.bits.specs.Rows.{bytes_at, put_bytes};
ghost use Rattle.bits.specs.Texts.{printable_run, same_bytes};

// Four flags as half a byte, the first the highest.
pub fn nibble(a: bool, b: bool, c: bool, d: bool) -> u8
    ensures { result ≡ nibble a b c d }
{
    (a as u8) << 3 | (b as u8) << 2 | (c as u8) << 1 | d as u8
}

// A byte of its two halves; what stands above their four bits is left out.
pub fn join(high: u8, low: u8) -> u8
    ensures { result ≡ join high low }
{
    (high & 15) << 4 | low & 15
}

// Whether a text may have the byte.
pub fn is_printable(b: u8) -> bool
    ensures { result ≡ printable b }
{
    (0x20 <= b) & (b <= 0x7e)
}

// The first of four that does not hold; 4 if all do.
pub fn first_of(a: bool, b: bool, c: bool, d: bool) -> u8
    ensures { result ≡ first_of a b c d }
{
    if !a {
        0
    } else if !b {
        1
    } else if !c {
        2
    } else if !d {
        3
    } else {
        4
    }
}

// The number that four bytes say.
pub fn number(e: [u8; 4]) -> u32
    ensures { result ≡ big (four_at e 0) }
{
    u32::from_be_bytes(e)
}

// The four bytes that say a number.
pub fn four_of(n: u32) -> [u8; 4]
    ensures { result ≡ bytes 4 n }
{
    n.to_be_bytes()
}

// Four bytes have no bit but those of a mask. Both are looked at as one number.
pub fn are_within(e: [u8; 4], mask: u32) -> bool
    ensures { result ≡ within mask (big (four_at e 0)) }
{
    let n = number(e);
    n & mask == n
}

// The first byte with a bit that its byte of the mask does not have; 4 if none has one.
pub fn first_outside(e: [u8; 4], mask: u32) -> u8
    ensures { result ≡ first_outside (bytes 4 mask) e }
{
    if are_within(e, mask) {
        return 4;
    }
    let m = four_of(mask);
    first_of(
        e[0] & m[0] == e[0],
        e[1] & m[1] == e[1],
        e[2] & m[2] == e[2],
        e[3] & m[3] == e[3],
    )
}

pub fn byte_at(s: &[u8], at: u32) -> u8
    requires { at < length s.now }
    ensures { result ≡ get_or s.now at 0 }
{
    s[at as usize]
}

pub fn four_at(s: &[u8], at: u32) -> [u8; 4]
    requires { at + 4 ≤ length s.now }
    ensures { result ≡ four_at s.now at }
{
    let k = at as usize;
    [s[k], s[k + 1], s[k + 2], s[k + 3]]
}

pub fn put_four(s: &mut [u8], at: u32, f: [u8; 4])
    requires { at + 4 ≤ length s.old }
    ensures { s.new ≡ put_four s.old at f }
{
    copy(&f, 0, s, at, 4);
}

// Copies n bytes.
pub fn copy(from: &[u8], at: u32, to: &mut [u8], place: u32, n: u32)
    requires n_in_bounds { at + n ≤ length from.now }
    requires n_in_bounds_2 { place + n ≤ length to.old }
    ensures { to.new ≡ put_bytes to.old place (bytes_at from.now at n) }
{
    let (start, k) = (at as usize, place as usize);
    for i in 0..n as usize {
        to[k + i] = from[start + i];
    }
}

// How many of n bytes stand before the first that is not printable.
pub fn printable_run(s: &[u8], at: u32, n: u32) -> u32
    requires { at + n ≤ length s.now }
    ensures { result ≡ printable_run s.now at n }
{
    let k = at as usize;
    for i in 0..n {
        if !is_printable(s[k + i as usize]) {
            return i;
        }
    }
    n
}

// Whether n bytes are the first of a text.
pub fn are_same(s: &[u8], at: u32, text: &[u8], n: u32) -> bool
    requires n_in_bounds { at + n ≤ length s.now }
    requires n_in_bounds_2 { n ≤ length text.now }
    ensures { result ≡ same_bytes s.now at text.now n }
{
    let (k, n) = (at as usize, n as usize);
    s[k..k + n] == text[..n]
}

pub fn big16_at(s: &[u8], at: u32) -> u16
    requires { at + 2 ≤ length s.now }
    ensures { result ≡ big (two_at s.now at) }
{
    let k = at as usize;
    u16::from_be_bytes([s[k], s[k + 1]])
}

pub fn big32_at(s: &[u8], at: u32) -> u32
    requires { at + 4 ≤ length s.now }
    ensures { result ≡ big (four_at s.now at) }
{
    u32::from_be_bytes(four_at(s, at))
}
