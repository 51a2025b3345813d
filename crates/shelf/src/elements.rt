// Element j of a shelf, out of the block and into it.
ghost use Rattle.std.specs.Prelude.{◌≡◌};
ghost use Rattle.shelf.specs.Limits.{HasElement};
ghost use Rattle.shelf.specs.Elements.{settings_at, thresholds_at, reading_at, nominal_at, settings_put, thresholds_put};

use crate::limits;

pub fn settings_at(shelf: &[u8], j: u16) -> [u8; 4]
    requires { HasElement shelf.now j }
    ensures { result ≡ settings_at shelf.now j }
{
    bits::four_at(shelf, limits::element_place(j))
}

pub fn thresholds_at(shelf: &[u8], j: u16) -> [u8; 4]
    requires { HasElement shelf.now j }
    ensures { result ≡ thresholds_at shelf.now j }
{
    bits::four_at(shelf, limits::element_place(j) + 4)
}

pub fn reading_at(shelf: &[u8], j: u16) -> u16
    requires { HasElement shelf.now j }
    ensures { result ≡ reading_at shelf.now j }
{
    bits::big16_at(shelf, limits::element_place(j) + 8)
}

pub fn nominal_at(shelf: &[u8], j: u16) -> u16
    requires { HasElement shelf.now j }
    ensures { result ≡ nominal_at shelf.now j }
{
    bits::big16_at(shelf, limits::element_place(j) + 10)
}

pub fn put_settings(shelf: &mut [u8], j: u16, e: [u8; 4])
    requires { HasElement shelf.old j }
    ensures { shelf.new ≡ settings_put shelf.old j e }
{
    bits::put_four(shelf, limits::element_place(j), e);
}

pub fn put_thresholds(shelf: &mut [u8], j: u16, t: [u8; 4])
    requires { HasElement shelf.old j }
    ensures { shelf.new ≡ thresholds_put shelf.old j t }
{
    bits::put_four(shelf, limits::element_place(j) + 4, t);
}
