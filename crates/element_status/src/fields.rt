// An entry and the four bytes that say it, by the numbers of a type: the lowest bit of each field, and the most that it holds.
ghost use Rattle.std.specs.Prelude.{◌≡◌};
ghost use Rattle.bits.specs.Numbers.{bytes};
ghost use Rattle.element.specs.StatusLayout.{cut_at, put_onto, cuts};
ghost use Rattle.element.specs.Status.{entry_of};
ghost use Rattle.element_status.specs.Words.{four_put, number_of, words_within};

use element::types::Kind;

fn cut(n: u32, shift: u8, most: u8) -> u8
    ensures { result ≡ cut_at n shift most }
{
    (n >> (shift % 32) & most as u32) as u8
}

fn put_onto(x: u8, shift: u8, most: u8, n: u32) -> u32
    ensures { result ≡ put_onto x shift most n }
{
    ((x & most) as u32) << (shift % 32) | n
}

// Four fields cut out of a number.
fn four_cut(n: u32, shifts: u32, most: u32) -> [u8; 4]
    ensures { result ≡ cuts n (bytes 4 shifts) (bytes 4 most) }
{
    let s = bits::four_of(shifts);
    let m = bits::four_of(most);
    [
        cut(n, s[0], m[0]),
        cut(n, s[1], m[1]),
        cut(n, s[2], m[2]),
        cut(n, s[3], m[3]),
    ]
}

// Four fields put onto a number.
fn four_put(x: [u8; 4], shifts: u32, most: u32, n: u32) -> u32
    ensures { result ≡ four_put x (bytes 4 shifts) (bytes 4 most) n }
{
    let s = bits::four_of(shifts);
    let m = bits::four_of(most);
    let n = put_onto(x[3], s[3], m[3], n);
    let n = put_onto(x[2], s[2], m[2], n);
    let n = put_onto(x[1], s[1], m[1], n);
    put_onto(x[0], s[0], m[0], n)
}

// The entry that four bytes say.
pub fn entry_as(kind: Kind, e: [u8; 4]) -> [u8; 16]
    ensures { result ≡ entry_of kind e }
{
    let n = bits::number(e);
    let a = four_cut(n, kind.shifts_first(), kind.shown_first());
    let b = four_cut(n, kind.shifts_next(), kind.shown_next());
    let c = four_cut(n, kind.shifts_last(), kind.shown_last());
    [
        e[0] % 16,
        e[0] / 64 % 2,
        e[0] / 32 % 2,
        e[0] / 16 % 2,
        a[0],
        a[1],
        a[2],
        a[3],
        b[0],
        b[1],
        b[2],
        b[3],
        c[0],
        c[1],
        c[2],
        c[3],
    ]
}

// The number that bytes 1 to 3 say of a status element which shows an entry.
pub fn number_as(kind: Kind, x: [u8; 16]) -> u32
    ensures { result ≡ number_of kind x }
{
    let n = four_put(
        [x[12], x[13], x[14], x[15]],
        kind.shifts_last(),
        kind.shown_last(),
        0,
    );
    let n = four_put(
        [x[8], x[9], x[10], x[11]],
        kind.shifts_next(),
        kind.shown_next(),
        n,
    );
    four_put(
        [x[4], x[5], x[6], x[7]],
        kind.shifts_first(),
        kind.shown_first(),
        n,
    )
}

// Each four bytes of an entry have no bit but those of a mask.
pub fn are_within(x: [u8; 16], head: u32, first: u32, next: u32, last: u32) -> bool
    ensures { result ≡ words_within x head first next last }
{
    bits::are_within([x[0], x[1], x[2], x[3]], head)
        & bits::are_within([x[4], x[5], x[6], x[7]], first)
        & bits::are_within([x[8], x[9], x[10], x[11]], next)
        & bits::are_within([x[12], x[13], x[14], x[15]], last)
}
