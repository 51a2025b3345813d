// A walk over the elements of a shelf, which calls at each what it is given.
ghost use Rattle.std.specs.Prelude.{◌≡◌, ℕ, Bool, ◌≤◌, length};
ghost use Rattle.bits.specs.Choice.{all_below};
ghost use Rattle.shelf.specs.Limits.{element_place};
ghost use Rattle.shelf.specs.Calls.{TakesElements, TellsEach};

use crate::types;
use crate::types::Run;

// Whether a test holds of each of the first n elements. It ends at the first of which it doesn't.
pub fn all_hold<F: Fn(Run, u16) -> bool>(shelf: &[u8], n: u16, holds: F) -> bool
    requires n_in_bounds { element_place n ≤ length shelf.now }
    requires takes { TakesElements (F.pre holds) shelf.now n }
    ensures { (f : ℕ → Bool) → TellsEach (F.post holds) shelf.now n f → result ≡ all_below f n }
{
    let mut run = types::first_run(shelf);
    for j in 0..n {
        run = types::run_to(shelf, run, j);
        if !holds(run, j) {
            return false;
        }
    }
    true
}
