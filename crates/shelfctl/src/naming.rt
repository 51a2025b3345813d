// The names of a shelf: told by a page, found, and set.
use crate::answer;
use refusals::{PageRefusal, Refusal};
use shelf::limits;
use std::io;
use std::rt::Env;
use tool_input::arguments;
use tool_input::arguments::Named;

// Each name that the page tells, or why it is refused for this shelf.
pub fn tell_page(rt: &impl Print, shelf: &[u8], page: &[u8]) -> io::Result<()> {
    let checked = ses::check(shelf);
    if answer::tell(rt, checked, "")? {
        tell_read(rt, shelf, page)?;
    }
    Ok(())
}

fn tell_read(rt: &impl Print, shelf: &[u8], page: &[u8]) -> io::Result<()> {
    let mut record = [0u8; descriptor_record::reading::LENGTH];
    let read = ses::read_descriptors(configuration_of(shelf), page, &mut record);
    match read {
        Ok(()) => {
            rt.print("accepted\n")?;
            tool_show::named::tell_record(rt, shelf, &record)
        }
        Err(told) => tell_refused(rt, shelf, page, told),
    }
}

// A shelf's first bytes; none of a block that has fewer.
fn configuration_of(shelf: &[u8]) -> &[u8] {
    shelf.get(..limits::CONFIGURATION).unwrap_or(&[])
}

fn tell_refused(rt: &impl Print, shelf: &[u8], page: &[u8], told: PageRefusal) -> io::Result<()> {
    answer::tell_refused(rt, told, |at| {
        tool_show::place::tell_on_names(rt, shelf, page, at)
    })
}

// The first element that has the name, with its type.
pub fn tell_found<R: Env + Print>(rt: &R, shelf: &[u8]) -> io::Result<()> {
    let mut text = [0u8; arguments::NAME_ROOM];
    let n = arguments::name(rt, arguments::INPUT_PLACE, &mut text);
    let found = ses::find_name(shelf, &text[..n]);
    match found {
        Ok(Some(j)) => tool_show::named::tell_element(rt, shelf, j),
        Ok(None) => rt.print("no element has this name\n"),
        Err(r) => tool_print::refusal::tell(rt, r),
    }
}

// The answer and, if the name is taken, what the shelf holds afterwards.
pub fn tell_set<R: Env + Print>(
    rt: &R,
    err: &impl Print,
    named: Named,
    shelf: &mut [u8],
) -> io::Result<()> {
    let Some(i) = arguments::number(rt, arguments::INPUT_PLACE) else {
        return arguments::say_no_number(err, named);
    };
    let mut text = [0u8; arguments::NAME_ROOM];
    let n = arguments::name(rt, arguments::NAME_PLACE, &mut text);
    let set = set(named, shelf, i, &text[..n]);
    if answer::tell(rt, set, "accepted\n")? {
        tool_show::contents(rt, shelf)?;
    }
    Ok(())
}

fn set(named: Named, shelf: &mut [u8], i: u32, text: &[u8]) -> Result<(), Refusal> {
    match named {
        Named::Element => ses::set_name(shelf, i, text),
        Named::Overall => ses::set_overall_name(shelf, i, text),
    }
}
