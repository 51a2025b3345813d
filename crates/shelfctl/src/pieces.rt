// A page that acts and comes in pieces, as a bus hands it over.
ghost use Rattle.std.specs.Prelude.{◌≤◌};

use crate::{applying, with_file};
use refusals::PageRefusal;
use std::io;
use std::rt::{Env, Files};
use tool_input::{arguments, files};

// The answer to the page, as to a whole one; or what is wrong with SIZE or CODE.
pub fn tell<R: Env + Files + Print>(rt: &R, err: &impl Print, shelf: &mut [u8]) -> io::Result<()> {
    let Some(size @ 1..) = arguments::number(rt, arguments::SIZE_PLACE) else {
        return arguments::say_wrong(err, "SIZE is not a number from 1 on, of up to 20 digits");
    };
    let Some(code @ 0..=255) = arguments::number(rt, arguments::CODE_PLACE) else {
        return arguments::say_wrong(
            err,
            "CODE is not a number from 0 to 255, of up to 20 digits",
        );
    };
    tell_answer(rt, err, shelf, size, code as u8)
}

fn tell_answer<R: Env + Files + Print>(
    rt: &R,
    err: &impl Print,
    shelf: &mut [u8],
    size: u32,
    code: u8,
) -> io::Result<()>
    requires { 1 ≤ size }
{
    let mut page = [0u8; files::PAGE_ROOM];
    with_file(rt, err, arguments::PAGE_PLACE, "PAGE", &mut page, |page| {
        let answer = apply(shelf, page, size, code);
        applying::tell(rt, shelf, answer)
    })
}

// The page is collected, and acts at its end.
fn apply(shelf: &mut [u8], page: &[u8], size: u32, code: u8) -> Result<(), PageRefusal>
    requires { 1 ≤ size }
{
    let mut collector = [0u8; collector::LENGTH];
    ses::empty_collector(&mut collector);
    put(&mut collector, page, size);
    ses::end_page(&mut collector, shelf, code)
}

fn put(collector: &mut [u8; collector::LENGTH], page: &[u8], size: u32)
    requires { 1 ≤ size }
{
    for chunk in page.chunks(size as usize) {
        ses::put_chunk(collector, chunk);
    }
}
