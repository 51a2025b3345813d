// The settings of all elements as one list: four bytes for each, in the order of the elements.
ghost use Rattle.std.specs.Prelude.{◌≡◌};
ghost use Rattle.shelf.specs.SettingsList.{HasSettings, settings_in};

// Those of element j.
pub fn settings_in(list: &[u8], j: u16) -> [u8; 4]
    requires { HasSettings list.now j }
    ensures { result ≡ settings_in list.now j }
{
    bits::four_at(list, 4 * j as u32)
}
