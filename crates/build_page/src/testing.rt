// Which wishes are taken, and which of them can be reached.
ghost use Rattle.std.specs.Prelude.{◌≡◌, ◌*◌, ◌≤◌, length};
ghost use Rattle.element.specs.Settings.{settings_formed};
ghost use Rattle.shelf.specs.Limits.{element_place, HasElement};
ghost use Rattle.shelf.specs.Types.{run_at};
ghost use Rattle.shelf.specs.SettingsList.{HasSettings, settings_in};
ghost use Rattle.build_page.specs.Promise.{number_tested, records_tested, wish_tested};
ghost use Rattle.build_page.specs.Page.{reachable, reach_tested};

use element::settings;
use refusals::Refusal;
use shelf::{elements, settings_list, types, walk};

// The number of records, for n elements.
fn test_number(wanted: &[u8], n: u16) -> Result<(), Refusal>
    ensures { result ≡ number_tested wanted.now n }
{
    if wanted.len() != 4 * n as usize {
        return Err(Refusal::WantedList);
    }
    Ok(())
}

// Whether each of the first n records is one that its type may have.
fn test_records(shelf: &[u8], wanted: &[u8], n: u16) -> Result<(), Refusal>
    requires n_in_bounds { element_place n ≤ length shelf.now }
    requires n_in_bounds_2 { 4 * n ≤ length wanted.now }
    ensures { result ≡ records_tested shelf.now wanted.now n }
{
    let formed = walk::all_hold(
        shelf,
        n,
        |run, j|
            requires { HasSettings wanted.now j }
            ensures { result ≡ settings_formed run.kind (settings_in wanted.entry.now j) }
        { settings::are_formed(run.kind, settings_list::settings_in(wanted, j)) },
    );
    if !formed {
        return Err(Refusal::WantedList);
    }
    Ok(())
}

// Whether each of the first n elements can be brought to its record.
pub fn test_reach(shelf: &[u8], wanted: &[u8], n: u16) -> Result<(), Refusal>
    requires n_in_bounds { element_place n ≤ length shelf.now }
    requires n_in_bounds_2 { 4 * n ≤ length wanted.now }
    ensures { result ≡ reach_tested shelf.now wanted.now n }
{
    let reached = walk::all_hold(
        shelf,
        n,
        |run, j|
            requires has_element { HasElement shelf.now j }
            requires has_settings { HasSettings wanted.now j }
            requires run_value { run ≡ run_at shelf.now j }
            ensures { result ≡ reachable shelf.entry.now wanted.entry.now j }
        {
            build_element::in_reach(
                run.kind,
                elements::settings_at(shelf, j),
                settings_list::settings_in(wanted, j),
            )
        },
    );
    if !reached {
        return Err(Refusal::Unreachable);
    }
    Ok(())
}

pub fn wish(shelf: &[u8], wanted: &[u8]) -> Result<(), Refusal>
    ensures { result ≡ wish_tested shelf.now wanted.now }
{
    let tested = page::testing::shelf(shelf);
    let Ok(()) = tested else {
        return tested;
    };
    let n = types::all_elements(shelf);
    let number = test_number(wanted, n);
    let Ok(()) = number else {
        return number;
    };
    test_records(shelf, wanted, n)
}
