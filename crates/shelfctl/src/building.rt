// The control page for a wanted list.
use crate::pages;
use build_page::built::Built;
use shelf::limits;
use std::io;
use tool_print::Counted;

pub fn tell(rt: &impl Print, shelf: &[u8], wanted: &[u8]) -> io::Result<()> {
    let mut page = [0u8; limits::LONGEST_SLOT_PAGE];
    tell_into(rt, shelf, wanted, &mut page)
}

// The page is left in the lent buffer.
pub fn tell_into(rt: &impl Print, shelf: &[u8], wanted: &[u8], page: &mut [u8]) -> io::Result<()> {
    let built = ses::build_control(shelf, wanted, page);
    match built {
        Ok(Built { bytes, selects }) => {
            say_head(rt, bytes, selects)?;
            tool_print::hex_lines(rt, pages::first(page, bytes))
        }
        Err(r) => tool_print::refusal::tell(rt, r),
    }
}

fn say_head(rt: &impl Print, bytes: u32, selects: u32) -> io::Result<()> {
    println!(rt;
        "control page, {}, {}",
        Counted(bytes as usize, "byte"),
        Counted(selects as usize, "SELECT"),
    )
}
