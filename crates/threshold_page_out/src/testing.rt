// Which Threshold Out pages a shelf accepts.
ghost use Rattle.std.specs.Prelude.{◌≡◌};
ghost use Rattle.shelf.specs.Limits.{HasElement};
ghost use Rattle.shelf.specs.Types.{run_at};
ghost use Rattle.page.specs.Places.{places_of, HasSlots};
ghost use Rattle.page.specs.Slots.{slots_of};
ghost use Rattle.page.specs.Header.{HasPage};
ghost use Rattle.threshold_page_out.specs.Tests.{element_ordered, order_tested, limits_tested, bytes_tested, thresholds_tested};

use crate::acting;
use page::places;
use page::places::Places;
use refusals::{PageRefusal, Refusal};
use shelf::{types, walk};

pub const CODE: u8 = 0x05;

// Element j would keep the threshold order.
fn element_ordered(shelf: &[u8], page: &[u8], at: Places, j: u16) -> bool
    requires has_element { HasElement shelf.now j }
    requires has_slots { HasSlots page.now at }
    requires at_value { at ≡ places_of shelf.now j }
    ensures { result ≡ element_ordered shelf.now page.now j }
{
    element_thresholds::are_ordered(at.kind, acting::taken_at(shelf, page, at, j))
}

fn test_order(shelf: &[u8], page: &[u8]) -> Result<(), Refusal>
    requires { HasPage shelf.now page.now }
    ensures { result ≡ order_tested shelf.now page.now }
{
    let n = types::all_elements(shelf);
    let ordered = walk::all_hold(
        shelf,
        n,
        |run, j|
            requires has_element { HasElement shelf.now j }
            requires has_slots { HasSlots page.now (places_of shelf.now j) }
            requires run_value { run ≡ run_at shelf.now j }
            ensures { result ≡ element_ordered shelf.entry.now page.entry.now j }
        { element_ordered(shelf, page, places::places_in(run, j), j) },
    );
    if !ordered {
        return Err(Refusal::ThresholdOrder);
    }
    Ok(())
}

// 7 is tested of all slots before 8 of any element.
fn test_limits(shelf: &[u8], page: &[u8], n: u16) -> Result<(), Refusal>
    requires has_page { HasPage shelf.now page.now }
    requires n_value { n ≡ slots_of shelf.now }
    ensures { result ≡ limits_tested shelf.now page.now n }
{
    let had = threshold_rows::test_had(shelf, page, threshold_rows::ON_PAGE, n);
    let Ok(()) = had else {
        return had;
    };
    test_order(shelf, page)
}

// The page's own tests.
fn test_bytes(shelf: &[u8], page: &[u8], n: u16) -> Result<(), PageRefusal>
    requires has_page { HasPage shelf.now page.now }
    requires n_value { n ≡ slots_of shelf.now }
    ensures { result ≡ bytes_tested shelf.now page.now n }
{
    let byte = threshold_rows::test_byte(page);
    let Ok(()) = byte else {
        return byte;
    };
    refusals::of_page(test_limits(shelf, page, n))
}

pub fn test(shelf: &[u8], page: &[u8]) -> Result<(), PageRefusal>
    ensures { result ≡ thresholds_tested shelf.now page.now }
{
    let tested = page::testing::page_slots(shelf, page, CODE);
    let Ok(n) = tested else {
        return refusals::of_page(tested.and(Ok(())));
    };
    test_bytes(shelf, page, n)
}
