// The Enclosure Control page (02h): which pages a shelf accepts, and what an accepted one makes of it.
#![tactic(auto)]

pub mod acting;
pub mod testing;

ghost use Rattle.refusals.specs.Outcomes.{Changes};
ghost use Rattle.control_page.specs.Tests.{control_tested};
ghost use Rattle.control_page.specs.Brought.{after};

use refusals::PageRefusal;

// The page is tested whole before the shelf is touched.
pub fn apply(shelf: &mut [u8], page: &[u8]) -> Result<(), PageRefusal>
    ensures { Changes (control_tested shelf.old page.now) (after shelf.old page.now) result shelf.new }
{
    let tested = testing::test(shelf, page);
    let Ok(()) = tested else {
        return tested;
    };
    acting::act(shelf, page);
    Ok(())
}
