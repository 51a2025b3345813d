// The pages that act: applied to a shelf, and the answer told.
use crate::answer;
use refusals::PageRefusal;
use std::io;
use tool_input::arguments::Act;

pub fn apply(act: Act, shelf: &mut [u8], page: &[u8]) -> Result<(), PageRefusal> {
    match act {
        Act::Control => ses::apply_control(shelf, page),
        Act::Thresholds => ses::apply_thresholds(shelf, page),
    }
}

// The answer and, if the page was accepted, what the shelf holds afterwards.
pub fn tell(rt: &impl Print, shelf: &[u8], answer: Result<(), PageRefusal>) -> io::Result<()> {
    if tell_answer(rt, shelf, answer)? {
        tool_show::contents(rt, shelf)?;
    }
    Ok(())
}

// Answers whether the page was accepted, after saying so.
pub fn tell_answer(
    rt: &impl Print,
    shelf: &[u8],
    answer: Result<(), PageRefusal>,
) -> io::Result<bool> {
    match answer {
        Ok(()) => {
            rt.print("accepted\n")?;
            Ok(true)
        }
        Err(told) => {
            tell_refused(rt, shelf, told)?;
            Ok(false)
        }
    }
}

fn tell_refused(rt: &impl Print, shelf: &[u8], told: PageRefusal) -> io::Result<()> {
    answer::tell_refused(rt, told, |at| tool_show::place::tell(rt, shelf, at))
}
