// The pages of a shelf, in hexadecimal.
use refusals::Refusal;
use shelf::limits;
use std::io;
use tool_input::arguments::Page;
use tool_print::Counted;

// The longest of all pages is one of names.
const LONGEST: usize = limits::LONGEST_DESCRIPTOR_PAGE;

pub fn tell_all(rt: &impl Print, shelf: &[u8]) -> io::Result<()> {
    let pages = [
        ("configuration page", Page::Configuration),
        ("status page", Page::Status),
        ("threshold page", Page::Thresholds),
        ("descriptor page", Page::Descriptors),
    ];
    for (name, page) in pages {
        tell(rt, Some(name), page, shelf)?;
    }
    Ok(())
}

// With a head, if it has a name.
pub fn tell(rt: &impl Print, name: Option<&str>, page: Page, shelf: &[u8]) -> io::Result<()> {
    let mut out = [0u8; LONGEST];
    let written = write(page, shelf, &mut out);
    if let Some(name) = name {
        say_head(rt, name, written.unwrap_or(0))?;
    }
    tell_written(rt, written, &out)
}

pub fn say_head(rt: &impl Print, name: &str, bytes: u32) -> io::Result<()> {
    println!(rt; "{name}, {}", Counted(bytes as usize, "byte"))
}

fn write(page: Page, shelf: &[u8], out: &mut [u8]) -> Result<u32, Refusal> {
    match page {
        Page::Configuration => ses::write_configuration(shelf, out),
        Page::Status => ses::write_status(shelf, out),
        Page::Thresholds => ses::write_thresholds(shelf, out),
        Page::Descriptors => ses::write_descriptors(shelf, out),
    }
}

fn tell_written(rt: &impl Print, written: Result<u32, Refusal>, out: &[u8]) -> io::Result<()> {
    match written {
        Ok(n) => tool_print::hex_lines(rt, first(out, n)),
        Err(r) => tool_print::refusal::tell(rt, r),
    }
}

// The page at the start of a buffer, of so many bytes; none if the buffer were shorter.
pub fn first(out: &[u8], bytes: u32) -> &[u8] {
    out.get(..bytes as usize).unwrap_or(&[])
}
