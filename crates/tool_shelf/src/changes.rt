// What changed in the built-in shelf since a copy of it was taken.
//
// The places are written out as docs/LAYOUT.md has them, as in `builtin`.
ghost use Rattle.std.specs.Prelude.{◌≤◌, length};

use crate::builtin;
use std::fmt::Display;
use std::{fmt, io};
use tool_print::Counted;

const FIRST_ELEMENT: usize = 332;

const ELEMENT_SIZE: usize = 16;

const FIRST_NAME: usize = FIRST_ELEMENT + ELEMENT_SIZE * builtin::ELEMENTS as usize;

pub fn tell(
    rt: &impl Print,
    before: &[u8; builtin::LENGTH],
    after: &[u8; builtin::LENGTH],
) -> io::Result<()> {
    tell_elements(
        rt,
        &before[FIRST_ELEMENT..FIRST_NAME],
        &after[FIRST_ELEMENT..FIRST_NAME],
    )?;
    let front = differing(&before[..FIRST_ELEMENT], &after[..FIRST_ELEMENT]);
    let names = differing(&before[FIRST_NAME..], &after[FIRST_NAME..]);
    println!(rt; "all else: {}", Changed(front + names))
}

fn tell_elements(rt: &impl Print, before: &[u8], after: &[u8]) -> io::Result<()> {
    let elements = before.chunks(ELEMENT_SIZE).zip(after.chunks(ELEMENT_SIZE));
    for (j, (before, after)) in elements.enumerate() {
        println!(rt; "element {j}: {}", Changed(differing(before, after)))?;
    }
    Ok(())
}

// How many bytes differ.
fn differing(before: &[u8], after: &[u8]) -> usize
    ensures { result ≤ length before.now }
{
    before.iter().zip(after).filter(|(b, a)| b != a).count()
}

#[derive(Clone, Copy)]
struct Changed(usize);

impl Display for Changed {
    fn fmt<W: fmt::Write>(&self, f: &mut fmt::Formatter<W>) -> fmt::Result {
        match self.0 {
            0 => write!(f, "kept every byte"),
            n => write!(f, "{} changed", Counted(n, "byte")),
        }
    }
}
