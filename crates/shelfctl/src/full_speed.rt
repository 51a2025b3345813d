// The built-in shelf, brought to full speed by the page that is built for it.
use crate::{applying, building, pages};
use std::io;
use tool_input::arguments::Page;
use tool_shelf::{builtin, changes, settings};

// What is wanted and the page for it, between the status before and after; then the fans in words, and which bytes of
// the block changed.
pub fn show(rt: &impl Print) -> io::Result<()> {
    let mut shelf = builtin::shelf();
    let before = shelf;
    pages::tell(rt, Some("status page before"), Page::Status, &shelf)?;
    bring(rt, &mut shelf)?;
    pages::tell(rt, Some("status page after"), Page::Status, &shelf)?;
    tool_show::first_type(rt, &shelf)?;
    changes::tell(rt, &before, &shelf)
}

fn bring(rt: &impl Print, shelf: &mut [u8]) -> io::Result<()> {
    let wanted = wanted_list(shelf);
    let n = builtin::WANTED_LENGTH as u32;
    pages::say_head(rt, "wanted settings: element 0 to full speed", n)?;
    tool_print::hex_lines(rt, &wanted)?;
    let mut page = [0u8; builtin::CONTROL_LENGTH];
    building::tell_into(rt, shelf, &wanted, &mut page)?;
    let answer = ses::apply_control(shelf, &page);
    applying::tell_answer(rt, shelf, answer)?;
    Ok(())
}

// The stored settings, but for element 0: ON and SPEED 7.
fn wanted_list(shelf: &[u8]) -> [u8; builtin::WANTED_LENGTH] {
    let mut list = [0u8; builtin::WANTED_LENGTH];
    settings::put(shelf, &mut list);
    list[3] = 0x27;
    list
}
