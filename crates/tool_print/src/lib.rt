// Values as they read in a line of output, and refusals in words, for every program of this repository.
#![tactic(auto)]

pub mod refusal;

use std::fmt::Display;
use std::{fmt, io};

// So many things, by the word for one of them.
#[derive(Clone, Copy)]
pub struct Counted<'a>(pub usize, pub &'a str);

impl Display for Counted<'_> {
    fn fmt<W: fmt::Write>(&self, f: &mut fmt::Formatter<W>) -> fmt::Result {
        let Counted(n, one) = *self;
        let ending = if n == 1 { "" } else { "s" };
        write!(f, "{n} {one}{ending}")
    }
}

// Bytes in upper case, one after the other.
#[derive(Clone, Copy)]
pub struct Hex<'a>(pub &'a [u8]);

impl Display for Hex<'_> {
    fn fmt<W: fmt::Write>(&self, f: &mut fmt::Formatter<W>) -> fmt::Result {
        for b in self.0 {
            write!(f, "{b:02X}")?;
        }
        Ok(())
    }
}

// Text between quotation marks, with a dot for each byte that cannot be printed.
#[derive(Clone, Copy)]
pub struct Quoted<'a>(pub &'a [u8]);

impl Display for Quoted<'_> {
    fn fmt<W: fmt::Write>(&self, f: &mut fmt::Formatter<W>) -> fmt::Result {
        write!(f, "\"")?;
        for b in self.0 {
            let shown = if bits::is_printable(*b) { *b } else { b'.' };
            write!(f, "{}", char::from(shown))?;
        }
        write!(f, "\"")
    }
}

// A signed 16-bit number of hundredths.
#[derive(Clone, Copy)]
pub struct Hundredths(pub u16);

impl Display for Hundredths {
    fn fmt<W: fmt::Write>(&self, f: &mut fmt::Formatter<W>) -> fmt::Result {
        let n = self.0.cast_signed();
        let sign = if n < 0 { "-" } else { "" };
        let size = n.unsigned_abs();
        write!(f, "{sign}{}.{:02}", size / 100, size % 100)
    }
}

// A temperature byte is degrees C plus 20.
#[derive(Clone, Copy)]
pub struct Degrees(pub u8);

impl Display for Degrees {
    fn fmt<W: fmt::Write>(&self, f: &mut fmt::Formatter<W>) -> fmt::Result {
        write!(f, "{}", i16::from(self.0) - 20)
    }
}

// The names of the flags that are set, each after a comma.
#[derive(Clone, Copy)]
pub struct Flags<'a>(pub &'a [(bool, &'a str)]);

impl Display for Flags<'_> {
    fn fmt<W: fmt::Write>(&self, f: &mut fmt::Formatter<W>) -> fmt::Result {
        for (is_set, name) in self.0 {
            if *is_set {
                write!(f, ", {name}")?;
            }
        }
        Ok(())
    }
}

// Bytes in lower case with a blank between two.
#[derive(Clone, Copy)]
struct Spaced<'a>(&'a [u8]);

impl Display for Spaced<'_> {
    fn fmt<W: fmt::Write>(&self, f: &mut fmt::Formatter<W>) -> fmt::Result {
        let mut gap = "";
        for b in self.0 {
            write!(f, "{gap}{b:02x}")?;
            gap = " ";
        }
        Ok(())
    }
}

// Sixteen bytes to a line and nothing else, as sg_ses takes a page.
pub fn hex_lines(rt: &impl Print, bytes: &[u8]) -> io::Result<()> {
    for line in bytes.chunks(16) {
        println!(rt; "{}", Spaced(line))?;
    }
    Ok(())
}
