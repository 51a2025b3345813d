// The end of a collected page: all bytes that were put are one page, of the code meant, which is answered and acts on the shelf.
#![tactic(auto)]

pub mod testing;

ghost use Rattle.std.specs.Prelude.{◌≡◌};
ghost use Rattle.refusals.specs.Outcomes.{Changes};
ghost use Rattle.collector.specs.Collector.{HasRoom, page_of, emptied};
ghost use Rattle.collected_page.specs.Meant.{meant_tested, meant_after};

use refusals::PageRefusal;

fn apply(shelf: &mut [u8], page: &[u8], code: u8) -> Result<(), PageRefusal>
    ensures { Changes (meant_tested code shelf.old page.now) (meant_after code shelf.old page.now) result shelf.new }
{
    if code == control_page::testing::CODE {
        control_page::apply(shelf, page)
    } else if code == threshold_page_out::testing::CODE {
        threshold_page_out::apply(shelf, page)
    } else {
        refusals::of_page(testing::test_other(shelf, page))
    }
}

// The page is taken where it was collected.
fn act(collector: &[u8], shelf: &mut [u8], code: u8) -> Result<(), PageRefusal>
    requires { HasRoom collector.now }
    ensures { Changes (meant_tested code shelf.old (page_of collector.now)) (meant_after code shelf.old (page_of collector.now)) result shelf.new }
{
    let n = collector::count(collector);
    if n <= collector::MOST_KEPT {
        return apply(shelf, collector::first(collector, n), code);
    }
    let page = collector::first(collector, collector::MOST_KEPT);
    refusals::of_page(testing::test_long(shelf, page, n, code))
}

// The collector is empty afterwards, also where the page is refused.
pub fn end(collector: &mut [u8], shelf: &mut [u8], code: u8) -> Result<(), PageRefusal>
    requires { HasRoom collector.old }
    ensures changes { Changes (meant_tested code shelf.old (page_of collector.old)) (meant_after code shelf.old (page_of collector.old)) result shelf.new }
    ensures collector_after { collector.new ≡ emptied collector.old }
{
    let answer = act(collector, shelf, code);
    collector::empty(collector);
    answer
}
