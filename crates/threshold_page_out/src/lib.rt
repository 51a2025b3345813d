// The Threshold Out page (05h): which pages a shelf accepts, and what an accepted one makes of it.
#![tactic(auto)]

pub mod acting;
pub mod testing;

ghost use Rattle.refusals.specs.Outcomes.{Changes};
ghost use Rattle.threshold_page_out.specs.Tests.{thresholds_tested, after};

use refusals::PageRefusal;

// The page is tested whole before the shelf is touched.
pub fn apply(shelf: &mut [u8], page: &[u8]) -> Result<(), PageRefusal>
    ensures { Changes (thresholds_tested shelf.old page.now) (after shelf.old page.now) result shelf.new }
{
    let tested = testing::test(shelf, page);
    let Ok(()) = tested else {
        return tested;
    };
    acting::act(shelf, page);
    Ok(())
}
