// The first eight bytes of the pages 02h and 05h: page code, a byte of the page's own, length, generation code.
ghost use Rattle.std.specs.Prelude.{◌≡◌, ◌≤◌, length};
ghost use Rattle.shelf.specs.Limits.{HasTypes};
ghost use Rattle.page.specs.Header.{size_tested, code_tested, given_tested, framed, length_tested, generation_tested, headed, head_of_put, head_put};

use crate::slots;
use refusals::Refusal;
use shelf::limits;

pub fn test_size(page: &[u8]) -> Result<(), Refusal>
    ensures { result ≡ size_tested page.now }
{
    if page.len() < 4 {
        return Err(Refusal::PageTooShort);
    }
    Ok(())
}

pub fn test_code(page: &[u8], code: u8) -> Result<(), Refusal>
    requires { 4 ≤ length page.now }
    ensures { result ≡ code_tested page.now code }
{
    if bits::byte_at(page, 0) != code {
        return Err(Refusal::PageCode);
    }
    Ok(())
}

// The length that the page says, where so many bytes are given.
pub fn test_said(page: &[u8], given: usize) -> Result<(), Refusal>
    requires { 4 ≤ length page.now }
    ensures { result ≡ given_tested page.now given }
{
    if given != bits::big16_at(page, 2) as usize + 4 {
        return Err(Refusal::PageLength);
    }
    Ok(())
}

// The frame, which every page has.
pub fn test_frame(page: &[u8], code: u8) -> Result<(), Refusal>
    ensures { result ≡ framed page.now code }
{
    let size = test_size(page);
    let Ok(()) = size else {
        return size;
    };
    let named = test_code(page, code);
    let Ok(()) = named else {
        return named;
    };
    test_said(page, page.len())
}

// The length that the type list needs.
pub fn test_length(page: &[u8], needed: u32) -> Result<(), Refusal>
    ensures { result ≡ length_tested page.now needed }
{
    if page.len() != needed as usize {
        return Err(Refusal::NeededLength);
    }
    Ok(())
}

pub fn test_generation(configuration: &[u8], page: &[u8]) -> Result<(), Refusal>
    requires has_types { HasTypes configuration.now }
    requires in_bounds { 8 ≤ length page.now }
    ensures { result ≡ generation_tested configuration.now page.now }
{
    if bits::big32_at(page, 4) != bits::big32_at(configuration, limits::GENERATION) {
        return Err(Refusal::Generation);
    }
    Ok(())
}

// The tests that come before a page's own: its frame, and that the page is one for these n slots and of this generation.
pub fn test(configuration: &[u8], page: &[u8], code: u8, n: u16) -> Result<(), Refusal>
    requires { HasTypes configuration.now }
    ensures { result ≡ headed configuration.now page.now code n }
{
    let frame = test_frame(page, code);
    let Ok(()) = frame else {
        return frame;
    };
    let length = test_length(page, slots::slot_place(n));
    let Ok(()) = length else {
        return length;
    };
    test_generation(configuration, page)
}

// Writes the header of a page of so many bytes.
pub fn put_of(configuration: &[u8], out: &mut [u8], code: u8, own: u8, bytes: u32)
    requires has_types { HasTypes configuration.now }
    requires in_bounds { 8 ≤ length out.old }
    requires le_bytes { 4 ≤ bytes }
    ensures { out.new ≡ head_of_put configuration.now out.old code own bytes }
{
    let length = bytes - 4;
    let first = [code, own, (length / 256 % 256) as u8, (length % 256) as u8];
    bits::put_four(out, 0, first);
    bits::put_four(out, 4, bits::four_at(configuration, limits::GENERATION));
}

// The same with n slots.
pub fn put(configuration: &[u8], out: &mut [u8], code: u8, own: u8, n: u16)
    requires has_types { HasTypes configuration.now }
    requires in_bounds { 8 ≤ length out.old }
    ensures { out.new ≡ head_put configuration.now out.old code own n }
{
    put_of(configuration, out, code, own, slots::slot_place(n));
}
