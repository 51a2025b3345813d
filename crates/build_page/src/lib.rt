// The control page for a wish: the fewest SELECTs, overall ones counted, and the first in the dictionary of those.
#![tactic(auto)]

pub mod built;
pub mod testing;
pub mod writing;

ghost use Rattle.build_page.specs.Promise.{Promised};

use built::Built;
use refusals::Refusal;
use shelf::types;

pub fn build(shelf: &[u8], wanted: &[u8], out: &mut [u8]) -> Result<Built, Refusal>
    ensures { Promised shelf.now wanted.now out.old result out.new }
{
    let tested = testing::wish(shelf, wanted);
    let Ok(()) = tested else {
        return tested.and(Ok(Built::NOTHING));
    };
    let reach = testing::test_reach(shelf, wanted, types::all_elements(shelf));
    let Ok(()) = reach else {
        return reach.and(Ok(Built::NOTHING));
    };
    writing::write(shelf, wanted, out)
}
