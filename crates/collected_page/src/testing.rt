// The tests that only a collected page has: of a code that no page acts by, and of a page longer than the largest, of which only the first
// bytes were kept.
ghost use Rattle.std.specs.Prelude.{◌≡◌, ◌≤◌, length};
ghost use Rattle.collected_page.specs.Meant.{other_tested, meant_code, long_tested};

use page::header;
use refusals::Refusal;

// Where another code is meant.
pub fn test_other(shelf: &[u8], page: &[u8]) -> Result<(), Refusal>
    ensures { result ≡ other_tested shelf.now page.now }
{
    let formed = page::testing::shelf(shelf);
    let Ok(()) = formed else {
        return formed;
    };
    let size = header::test_size(page);
    let Ok(()) = size else {
        return size;
    };
    Err(Refusal::PageCode)
}

// Whether a page with this code acts, and this one has it.
fn test_meant(page: &[u8], code: u8) -> Result<(), Refusal>
    requires { 4 ≤ length page.now }
    ensures { result ≡ meant_code page.now code }
{
    if (code == control_page::testing::CODE) | (code == threshold_page_out::testing::CODE) {
        return header::test_code(page, code);
    }
    Err(Refusal::PageCode)
}

// Of n bytes, more than any shelf needs.
pub fn test_long(shelf: &[u8], page: &[u8], n: u32, code: u8) -> Result<(), Refusal>
    requires { 4 ≤ length page.now }
    ensures { result ≡ long_tested shelf.now page.now n code }
{
    let formed = page::testing::shelf(shelf);
    let Ok(()) = formed else {
        return formed;
    };
    let meant = test_meant(page, code);
    let Ok(()) = meant else {
        return meant;
    };
    let said = header::test_said(page, n as usize);
    let Ok(()) = said else {
        return said;
    };
    Err(Refusal::NeededLength)
}
