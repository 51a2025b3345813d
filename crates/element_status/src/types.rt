// What may be stored of an element of each type, what it shows of that, and its entry.
ghost use Rattle.std.specs.Prelude.{◌≡◌, [], ◌∷◌, ◌+◌, ◌*◌, ◌%◌};
ghost use Rattle.bits.specs.Bits.{num};
ghost use Rattle.element.specs.Settings.{settings_of, fields_formed};
ghost use Rattle.element.specs.declared.types.Kind.TheVariants.{Cooling, Temperature, Voltage, Current};
ghost use Rattle.element.specs.Verdict.{detected, fan_verdict, temperature_verdict, voltage_verdict, current_verdict};
ghost use Rattle.element.specs.Types.{is_on, speed_shown, fan_status, fan_fields, ident_of, fail_shown, temperature_status, temperature_fields, voltage_status, voltage_fields, current_status, current_fields};
ghost use Rattle.element.specs.Status.{first_byte, entry_of, status_bytes, shown_by, status_with};
ghost use Rattle.element_status.specs.Words.{number_of};

use crate::fields;
use element::settings;
use element::settings::Settings;
use element::types::Kind;
use element::verdict::Verdict;
use element_verdict::verdict;

// What is stored of an element is what its type may have. One function for all types, which the compiler makes again for each.
pub fn are_formed(kind: Kind, stored: [u8; 4], t: [u8; 4], reading: u16, nominal: u16) -> bool
    ensures { result ≡ fields_formed kind stored t reading nominal }
{
    kind.specialised(|kind| formed_as(kind, stored, t, reading, nominal))
}

fn formed_as(kind: Kind, stored: [u8; 4], t: [u8; 4], reading: u16, nominal: u16) -> bool
    ensures { result ≡ fields_formed kind stored t reading nominal }
{
    settings::are_formed(kind, stored)
        & element_thresholds::are_had(kind, t)
        & element_thresholds::are_ordered(kind, t)
        & kind.may_read(reading)
        & kind.may_have_nominal(nominal)
}

// The status element of an element with these stored settings, reading, nominal and thresholds.
pub fn status(kind: Kind, stored: [u8; 4], reading: u16, nominal: u16, t: [u8; 4]) -> [u8; 4]
    ensures { result ≡ status_bytes kind (shown_by kind (settings_of kind stored) reading nominal t) }
{
    match kind {
        Kind::Cooling => fan(stored, reading),
        Kind::Temperature => temperature(stored, reading, t),
        Kind::Voltage => voltage(stored, reading, nominal, t),
        Kind::Current => current(stored, reading, nominal, t),
    }
}

// The entry that four bytes say.
pub fn entry(kind: Kind, e: [u8; 4]) -> [u8; 16]
    ensures { result ≡ entry_of kind e }
{
    kind.specialised(
        |kind|
            ensures { result ≡ entry_of kind e }
        { fields::entry_as(kind, e) },
    )
}

// The four bytes that say an entry.
pub fn bytes(kind: Kind, x: [u8; 16]) -> [u8; 4]
    ensures { result ≡ status_bytes kind x }
{
    let e = bits::four_of(number(kind, x));
    [
        x[1] % 2 * 64 + x[2] % 2 * 32 + x[3] % 2 * 16 + x[0] % 16,
        e[1],
        e[2],
        e[3],
    ]
}

fn number(kind: Kind, x: [u8; 16]) -> u32
    ensures { result ≡ number_of kind x }
{
    kind.specialised(|kind| fields::number_as(kind, x))
}

// Byte 0 of a status element.
fn first_byte(set: Settings, code: u8) -> u8
    ensures { result ≡ first_byte (code ∷ num set.prdfail ∷ num set.disabled ∷ num set.swap ∷ []) }
{
    let flags = bits::nibble(false, set.prdfail, set.disabled, set.swap);
    bits::join(flags, code)
}

fn fan(stored: [u8; 4], reading: u16) -> [u8; 4]
    ensures { result ≡ status_with fan_status fan_fields (settings_of Cooling stored) (fan_verdict (is_on (settings_of Cooling stored)) reading) reading }
{
    let v = verdict::of_fan(stored, reading);
    fan_bytes(Settings::of(Kind::Cooling, stored), v, reading)
}

fn fan_bytes(set: Settings, v: Verdict, reading: u16) -> [u8; 4]
    ensures { result ≡ status_with fan_status fan_fields set v reading }
{
    let on = set.flags3 / 32 % 2;
    [
        first_byte(set, v.code),
        set.flags1 / 128 % 2 * 128 + (reading / 256 % 8) as u8,
        (reading % 256) as u8,
        set.flags3 / 64 % 2 * 64 + on * 32 + (1 - on) * 16 + speed_shown(set) % 8,
    ]
}

// A stopped fan shows none, whatever speed is stored for when it runs again.
fn speed_shown(set: Settings) -> u8
    ensures { result ≡ speed_shown set }
{
    if set.flags3 / 32 % 2 == 1 {
        set.speed
    } else {
        0
    }
}

// Byte 1 of a sensor: IDENT and FAIL, and below them a half of its own.
fn second_byte(set: Settings, v: Verdict, low: u8) -> u8
    ensures { result ≡ ident_of set * 128 + (num (fail_shown set v) * 64 + low % 16) }
{
    bits::join(set.flags1 / 64 % 4 * 4, low) | fail_lit(v)
}

// A limit that trips lights FAIL without a host, and no host puts it out.
fn fail_lit(v: Verdict) -> u8
    ensures { result ≡ num (detected v.code) * 64 }
{
    if (v.code == 2) | (v.code == 3) { 64 } else { 0 }
}

fn temperature(stored: [u8; 4], reading: u16, t: [u8; 4]) -> [u8; 4]
    ensures { result ≡ status_with temperature_status temperature_fields (settings_of Temperature stored) (temperature_verdict reading t) reading }
{
    let v = verdict::of_temperature(reading, t);
    temperature_bytes(Settings::of(Kind::Temperature, stored), v, reading)
}

fn temperature_bytes(set: Settings, v: Verdict, reading: u16) -> [u8; 4]
    ensures { result ≡ status_with temperature_status temperature_fields set v reading }
{
    [
        first_byte(set, v.code),
        second_byte(set, v, 0),
        (reading % 256) as u8,
        bits::nibble(v.highcrit, v.highwarn, v.lowcrit, v.lowwarn),
    ]
}

fn voltage(stored: [u8; 4], reading: u16, nominal: u16, t: [u8; 4]) -> [u8; 4]
    ensures { result ≡ status_with voltage_status voltage_fields (settings_of Voltage stored) (voltage_verdict reading nominal t) reading }
{
    let v = verdict::of_voltage(reading, nominal, t);
    voltage_bytes(Settings::of(Kind::Voltage, stored), v, reading)
}

fn voltage_bytes(set: Settings, v: Verdict, reading: u16) -> [u8; 4]
    ensures { result ≡ status_with voltage_status voltage_fields set v reading }
{
    let limits = bits::nibble(v.highwarn, v.lowwarn, v.highcrit, v.lowcrit);
    [
        first_byte(set, v.code),
        second_byte(set, v, limits),
        (reading / 256) as u8,
        (reading % 256) as u8,
    ]
}

// The bytes of a voltage: the verdict on a current has no UNDER bit.
fn current(stored: [u8; 4], reading: u16, nominal: u16, t: [u8; 4]) -> [u8; 4]
    ensures { result ≡ status_with current_status current_fields (settings_of Current stored) (current_verdict reading nominal t) reading }
{
    let v = verdict::of_current(reading, nominal, t);
    voltage_bytes(Settings::of(Kind::Current, stored), v, reading)
}
