// One name: the text at a place up to the first byte that is not printable, at most 32 bytes.
ghost use Rattle.std.specs.Prelude.{◌≡◌, ◌+◌, ◌≤◌, length};
ghost use Rattle.shelf.specs.Limits.{most_text};
ghost use Rattle.names.specs.Name.{name_length, name_at, is_name, equal};

use shelf::limits;

pub fn length_at(s: &[u8], at: u32) -> u32
    requires { at + most_text ≤ length s.now }
    ensures { result ≡ name_length s.now at }
{
    bits::printable_run(s, at, limits::MOST_TEXT as u32)
}

// The name at a place is this text. Its end is looked for only where the text stands.
pub fn equals(s: &[u8], at: u32, text: &[u8]) -> bool
    requires most_text_in_bounds { at + most_text ≤ length s.now }
    requires text_len_bound { length text.now ≤ most_text }
    ensures { result ≡ equal (name_at s.now at) text.now }
{
    let n = text.len() as u32;
    bits::are_same(s, at, text, n) && length_at(s, at) == n
}

// A text that is a name.
pub fn is_name(text: &[u8]) -> bool
    ensures { result ≡ is_name text.now }
{
    text.len() <= limits::MOST_TEXT as usize && text.iter().all(|b| bits::is_printable(*b))
}
