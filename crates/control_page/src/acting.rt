// What a control page makes of a shelf.
ghost use Rattle.std.specs.Prelude.{◌≡◌, true};
ghost use Rattle.element_control.specs.Control.{selected, control_of, settled};
ghost use Rattle.shelf.specs.Limits.{HasElement};
ghost use Rattle.shelf.specs.Elements.{settings_at, settings_put};
ghost use Rattle.shelf.specs.SettingsList.{with_settings};
ghost use Rattle.page.specs.Places.{places_of, HasSlots};
ghost use Rattle.page.specs.Header.{HasPage};
ghost use Rattle.control_page.specs.Brought.{settings_after, brought_to};

use element::settings::Settings;
use element::types::Kind;
use element_control::Control;
use page::places;
use page::places::Places;
use shelf::{elements, types};

fn act_by(shelf: &mut [u8], kind: Kind, e: [u8; 4], j: u16)
    requires has_element { HasElement shelf.old j }
    requires e_value { selected e ≡ true }
    ensures { shelf.new ≡ settings_put shelf.old j (settled kind (control_of kind e) (settings_at shelf.old j)) }
{
    let control = Control::of(kind, e);
    let set = control.act(Settings::of(kind, elements::settings_at(shelf, j)));
    elements::put_settings(shelf, j, set.bytes(kind));
}

// The settings of element j are put only if something acts on it.
fn act_on(shelf: &mut [u8], page: &[u8], at: Places, j: u16)
    requires has_element { HasElement shelf.old j }
    requires has_slots { HasSlots page.now at }
    requires at_value { at ≡ places_of shelf.old j }
    ensures { shelf.new ≡ settings_put shelf.old j (settings_after shelf.old page.now j) }
{
    let kind = at.kind;
    let own = bits::four_at(page, at.ownplace);
    if Control::is_selected(own) {
        act_by(shelf, kind, own, j);
        return;
    }
    let overall = bits::four_at(page, at.overallplace);
    if Control::is_selected(overall) {
        act_by(shelf, kind, overall, j);
    }
}

pub fn act(shelf: &mut [u8], page: &[u8])
    requires { HasPage shelf.old page.now }
    ensures { shelf.new ≡ with_settings shelf.old (brought_to shelf.old page.now) }
{
    let n = types::all_elements(shelf);
    let mut run = types::first_run(shelf);
    for j in 0..n {
        run = types::run_to(shelf, run, j);
        act_on(shelf, page, places::places_in(run, j), j);
    }
}
