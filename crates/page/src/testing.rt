// The first tests of a call: the shelf or the configuration that it is given, and the header of a page for it.
ghost use Rattle.std.specs.Prelude.{◌≡◌, ℕ};
ghost use Rattle.refusals.specs.Answers.{Answer, PageAnswer};
ghost use Rattle.refusals.specs.Outcomes.{telling, next, page_next};
ghost use Rattle.page.specs.Slots.{slots_of};
ghost use Rattle.page.specs.Header.{shelf_tested, configuration_tested, page_tested, read_tested};
ghost use Rattle.page.specs.Calls.{Gives};

use crate::header;
use refusals::{PageRefusal, Refusal};

pub fn shelf(shelf: &[u8]) -> Result<(), Refusal>
    ensures { result ≡ shelf_tested shelf.now }
{
    let opened = shelf_formed::open_shelf(shelf);
    let Some(_) = opened else {
        return Err(Refusal::ShelfNotWellFormed);
    };
    Ok(())
}

// The same, and how many slots a page for it has.
pub fn shelf_slots(shelf: &[u8]) -> Result<u16, Refusal>
    ensures { result ≡ telling (shelf_tested shelf.now) (slots_of shelf.now) }
{
    let opened = shelf_formed::open_shelf(shelf);
    let Some(sizes) = opened else {
        return Err(Refusal::ShelfNotWellFormed);
    };
    Ok(sizes.types + sizes.elements)
}

pub fn configuration_slots(configuration: &[u8]) -> Result<u16, Refusal>
    ensures { result ≡ telling (configuration_tested configuration.now) (slots_of configuration.now) }
{
    let opened = shelf_formed::open_configuration(configuration);
    let Some(sizes) = opened else {
        return Err(Refusal::ShelfNotWellFormed);
    };
    Ok(sizes.types + sizes.elements)
}

// The next test behind one that counted the slots.
pub fn and_test<F: FnOnce(u16) -> Result<(), Refusal>>(
    counted: Result<u16, Refusal>,
    test: F,
) -> Result<u16, Refusal>
    requires { (n : ℕ) → counted ≡ Ok n → F.pre test n }
    ensures { (a rest : Answer) (n : ℕ) → counted ≡ telling a n → Gives (F.post test n) rest → result ≡ telling (next a rest) n }
{
    let Ok(n) = counted else {
        return counted;
    };
    test(n).and(Ok(n))
}

// The last one, of the page's own bytes.
pub fn and_test_bytes<F: FnOnce(u16) -> Result<(), PageRefusal>>(
    counted: Result<u16, Refusal>,
    test: F,
) -> Result<(), PageRefusal>
    requires { (n : ℕ) → counted ≡ Ok n → F.pre test n }
    ensures { (a : Answer) (rest : PageAnswer) (n : ℕ) → counted ≡ telling a n → Gives (F.post test n) rest → result ≡ page_next a rest }
{
    let Ok(n) = counted else {
        return refusals::of_page(counted.and(Ok(())));
    };
    test(n)
}

pub fn page_slots(shelf: &[u8], page: &[u8], code: u8) -> Result<u16, Refusal>
    ensures { result ≡ telling (page_tested shelf.now page.now code) (slots_of shelf.now) }
{
    and_test(shelf_slots(shelf), |n| header::test(shelf, page, code, n))
}

// The same of a page that is read under a configuration.
pub fn read_slots(configuration: &[u8], page: &[u8], code: u8) -> Result<u16, Refusal>
    ensures { result ≡ telling (read_tested configuration.now page.now code) (slots_of configuration.now) }
{
    and_test(
        configuration_slots(configuration),
        |n| header::test(configuration, page, code, n),
    )
}
