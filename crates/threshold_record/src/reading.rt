// The page read, under a configuration.
ghost use Rattle.std.specs.Prelude.{◌≡◌, Ok};
ghost use Rattle.refusals.specs.Outcomes.{placed, HandsBack};
ghost use Rattle.threshold_rows.specs.Rows.{on_page, HasRows};
ghost use Rattle.threshold_record.specs.Read.{bytes_tested, threshold_read, threshold_record};

use page::{slots, testing};
use refusals::PageRefusal;
use shelf::limits;
use threshold_page_in::writing;

// A threshold record has room for an entry of each slot.
pub const LENGTH: usize = 4 + 4 * limits::MOST_SLOTS as usize;

// The page's own tests.
fn test_bytes(configuration: &[u8], page: &[u8], n: u16) -> Result<(), PageRefusal>
    requires { HasRows configuration.now page.now on_page n }
    ensures { result ≡ bytes_tested configuration.now page.now n }
{
    let byte = threshold_rows::test_byte(page);
    let Ok(()) = byte else {
        return byte;
    };
    threshold_rows::test_page(configuration, page, n)
}

pub fn test(configuration: &[u8], page: &[u8]) -> Result<(), PageRefusal>
    ensures { result ≡ threshold_read configuration.now page.now }
{
    let counted = testing::read_slots(configuration, page, writing::CODE);
    testing::and_test_bytes(counted, |n| test_bytes(configuration, page, n))
}

// The record that an accepted page tells.
fn hand_over(configuration: &[u8], page: &[u8], fields: &mut [u8; LENGTH])
    requires { threshold_read configuration.now page.now ≡ Ok tt }
    ensures { fields.new ≡ placed (threshold_record configuration.now page.now) fields.old }
{
    let n = slots::count(configuration);
    record_head::put(fields, 0, 0, n);
    bits::copy(
        page,
        threshold_rows::ON_PAGE as u32,
        fields,
        threshold_rows::IN_RECORD as u32,
        4 * n as u32,
    );
}

pub fn read(configuration: &[u8], page: &[u8], fields: &mut [u8; LENGTH]) -> Result<(), PageRefusal>
    ensures { HandsBack (threshold_read configuration.now page.now) (threshold_record configuration.now page.now) fields.old result fields.new }
{
    let tested = test(configuration, page);
    let Ok(()) = tested else {
        return tested;
    };
    hand_over(configuration, page, fields);
    tested
}
