// A page written into an output buffer.
ghost use Rattle.std.specs.Prelude.{◌≡◌, ℕ, List, ◌≤◌, length};
ghost use Rattle.refusals.specs.Answers.{Answer};
ghost use Rattle.refusals.specs.Outcomes.{telling, WritesPage};
ghost use Rattle.page.specs.Slots.{slot_place};
ghost use Rattle.page.specs.Calls.{TakesRoom, Puts};

use crate::slots;
use refusals::Refusal;

// What writes a page: behind tests that count its n slots, `put` puts it into an output buffer that has room for it.
pub fn write<F: FnOnce(&mut [u8], u16)>(
    tested: Result<u16, Refusal>,
    out: &mut [u8],
    put: F,
) -> Result<u32, Refusal>
    requires { TakesRoom (F.pre put) tested out.old }
    ensures { (a : Answer) (page : List ℕ) (n : ℕ) → tested ≡ telling a n → Puts (F.post put) out.old page n → WritesPage a page out.old result out.new }
{
    let Ok(n) = tested else {
        return tested.and(Ok(0));
    };
    let fit = refusals::fit(slots::slot_place(n), out.len());
    let Ok(_) = fit else {
        return fit;
    };
    put(out, n);
    fit
}
