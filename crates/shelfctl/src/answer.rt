// An answer in words.
use refusals::{PageRefusal, Refusal};
use std::io;

// Says the words for an acceptance, or the refusal. Answers whether it was accepted.
pub fn tell(rt: &impl Print, answer: Result<(), Refusal>, accepted: &str) -> io::Result<bool> {
    match answer {
        Ok(()) => {
            rt.print(accepted)?;
            Ok(true)
        }
        Err(r) => {
            tool_print::refusal::tell(rt, r)?;
            Ok(false)
        }
    }
}

// Why a page is refused, and what stands at the byte that offends. Offset 0 is that of no such byte.
pub fn tell_refused<F: FnOnce(u32) -> io::Result<()>>(
    rt: &impl Print,
    told: PageRefusal,
    tell_byte: F,
) -> io::Result<()>
    requires { F.IsAlwaysCallable tell_byte }
{
    tool_print::refusal::tell(rt, told.refusal)?;
    match told.offset {
        0 => Ok(()),
        at => tell_byte(at),
    }
}
