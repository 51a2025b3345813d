// What a Threshold Out page makes of a shelf.
ghost use Rattle.std.specs.Prelude.{◌≡◌};
ghost use Rattle.shelf.specs.Limits.{HasElement};
ghost use Rattle.shelf.specs.Elements.{thresholds_at};
ghost use Rattle.page.specs.Places.{HasSlots};
ghost use Rattle.page.specs.Header.{HasPage};
ghost use Rattle.threshold_page_out.specs.Taken.{taken_at, taken_from, with_thresholds};

use page::places;
use page::places::Places;
use shelf::{elements, types};

// The thresholds that element j would have, whose slots are these.
pub fn taken_at(shelf: &[u8], page: &[u8], at: Places, j: u16) -> [u8; 4]
    requires has_element { HasElement shelf.now j }
    requires has_slots { HasSlots page.now at }
    ensures { result ≡ taken_at page.now at (thresholds_at shelf.now j) }
{
    element_thresholds::taken(
        bits::four_at(page, at.ownplace),
        bits::four_at(page, at.overallplace),
        elements::thresholds_at(shelf, j),
    )
}

pub fn act(shelf: &mut [u8], page: &[u8])
    requires { HasPage shelf.old page.now }
    ensures { shelf.new ≡ with_thresholds shelf.old (taken_from shelf.old page.now) }
{
    let n = types::all_elements(shelf);
    let mut run = types::first_run(shelf);
    for j in 0..n {
        run = types::run_to(shelf, run, j);
        let t = taken_at(shelf, page, places::places_in(run, j), j);
        elements::put_thresholds(shelf, j, t);
    }
}
