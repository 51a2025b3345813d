// Texts as a block or a record has them: in room for the longest, with zeros behind their end.
ghost use Rattle.std.specs.Prelude.{◌≡◌, ◌++◌, ◌+◌, ◌-◌, ◌≤◌, length, replicate};
ghost use Rattle.bits.specs.Rows.{bytes_at};
ghost use Rattle.shelf.specs.Limits.{most_text};

use crate::limits;

// The text of n bytes that starts here, zeros behind it.
pub fn padded(from: &[u8], start: u32, n: u32) -> [u8; limits::MOST_TEXT as usize]
    requires n_in_bounds { start + n ≤ length from.now }
    requires n_le_most_text { n ≤ most_text }
    ensures { result ≡ bytes_at from.now start n ++ replicate (most_text - n) 0 }
{
    let mut text = [0; limits::MOST_TEXT as usize];
    bits::copy(from, start, &mut text, 0, n);
    text
}
