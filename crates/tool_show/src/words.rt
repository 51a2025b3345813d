// The types by name, and one element in a line: its name, its code, its reading, the flags and limit bits that are set, and its thresholds.
//
// What an element shows is read off the entry of its status element, so no rule of showing stands here.
ghost use Rattle.std.specs.Prelude.{◌+◌, ◌≤◌, length};
ghost use Rattle.shelf.specs.Limits.{most_text, HasElement};

use element::settings::Settings;
use element::types::Kind;
use element_status::ENTRY;
use names::name;
use shelf::elements;
use std::fmt::Display;
use std::io;
use tool_print::{Degrees, Flags, Hundredths, Quoted};

// The name of a type.
pub fn kind_name(kind: Kind) -> &'static str {
    match kind {
        Kind::Cooling => "Cooling",
        Kind::Temperature => "Temperature Sensor",
        Kind::Voltage => "Voltage Sensor",
        Kind::Current => "Current Sensor",
    }
}

// The n bytes from a place on.
pub fn part(s: &[u8], at: u32, n: u32) -> &[u8]
    requires { at + n ≤ length s.now }
{
    let start = at as usize;
    &s[start..start + n as usize]
}

// The name that stands at a place.
pub fn name_at(s: &[u8], at: u32) -> &[u8]
    requires { at + most_text ≤ length s.now }
{
    part(s, at, name::length_at(s, at))
}

// Element j, whose name stands at a place.
pub fn show(rt: &impl Print, shelf: &[u8], kind: Kind, j: u16, at: u32) -> io::Result<()>
    requires has_element { HasElement shelf.now j }
    requires most_text_in_bounds { at + most_text ≤ length shelf.now }
{
    let x = element_status::types::entry(kind, shelf_status::status_at(shelf, kind, j));
    let nominal = elements::nominal_at(shelf, j);
    let t = elements::thresholds_at(shelf, j);
    let stored = Settings::of(kind, elements::settings_at(shelf, j));
    print!(rt;
        "  element {j} {}: code {}, ",
        Quoted(name_at(shelf, at)),
        x[0]
    )?;
    match kind {
        Kind::Cooling => {
            say_fan(rt, x, stored.speed)?;
            say_flags(rt, x, x[7], stored.flags3)?;
        }
        Kind::Temperature => {
            say_temperature(rt, x)?;
            say_flags(rt, x, x[5], stored.flags1)?;
            say_thresholds(rt, t, |limit| Degrees(limit))?;
        }
        Kind::Voltage => {
            say_voltage(rt, x, nominal)?;
            say_flags(rt, x, x[5], stored.flags1)?;
            say_percent_thresholds(rt, t)?;
        }
        Kind::Current => {
            say_current(rt, x, nominal)?;
            say_flags(rt, x, x[5], stored.flags1)?;
            say_percent_thresholds(rt, t)?;
        }
    }
    rt.print("\n")
}

fn say_fan(rt: &impl Print, x: [u8; ENTRY], stored: u8) -> io::Result<()> {
    let rpm = u32::from(number(x[5], x[6])) * 10;
    print!(rt;
        "{rpm} rpm{}",
        Flags(&[(x[8] == 1, "ON"), (x[9] == 1, "OFF")])
    )?;
    say_speed(rt, x[10], stored)
}

// The speed code, and the stored SPEED where that is another.
fn say_speed(rt: &impl Print, shown: u8, stored: u8) -> io::Result<()> {
    print!(rt; ", speed {shown}")?;
    if stored != shown {
        print!(rt; " (stored {stored})")?;
    }
    Ok(())
}

fn say_temperature(rt: &impl Print, x: [u8; ENTRY]) -> io::Result<()> {
    match x[6] {
        0 => rt.print("no reading"),
        reading => print!(rt; "{} degrees C", Degrees(reading)),
    }?;
    rt.print(Flags(&[
        (x[7] == 1, "OT FAILURE"),
        (x[8] == 1, "OT WARNING"),
        (x[9] == 1, "UT FAILURE"),
        (x[10] == 1, "UT WARNING"),
    ]))
}

fn say_voltage(rt: &impl Print, x: [u8; ENTRY], nominal: u16) -> io::Result<()> {
    say_of_nominal(rt, number(x[10], x[11]), nominal, "V")?;
    rt.print(Flags(&[
        (x[6] == 1, "WARN OVER"),
        (x[7] == 1, "WARN UNDER"),
        (x[8] == 1, "CRIT OVER"),
        (x[9] == 1, "CRIT UNDER"),
    ]))
}

fn say_current(rt: &impl Print, x: [u8; ENTRY], nominal: u16) -> io::Result<()> {
    say_of_nominal(rt, number(x[8], x[9]), nominal, "A")?;
    rt.print(Flags(&[(x[6] == 1, "WARN OVER"), (x[7] == 1, "CRIT OVER")]))
}

// A number of two bytes of an entry.
fn number(high: u8, low: u8) -> u16 {
    u16::from_be_bytes([high, low])
}

fn say_of_nominal(rt: &impl Print, reading: u16, nominal: u16, unit: &str) -> io::Result<()> {
    print!(rt;
        "{} {unit} of nominal {} {unit}",
        Hundredths(reading),
        Hundredths(nominal)
    )
}

// The flags that every type here has; each shows IDENT first, and FAIL at a place of its own. Of the stored flags, FAIL is bit 6, and
// where it is not stored and shows all the same, that is said.
fn say_flags(rt: &impl Print, x: [u8; ENTRY], fail: u8, stored: u8) -> io::Result<()> {
    rt.print(Flags(&[
        (x[1] == 1, "PRDFAIL"),
        (x[2] == 1, "DISABLED"),
        (x[3] == 1, "SWAP"),
        (x[4] == 1, "IDENT"),
        (fail == 1, "FAIL"),
    ]))?;
    if fail == 1 && stored / 64 % 2 == 0 {
        rt.print(" (not stored)")?;
    }
    Ok(())
}

// Each limit in the form that it is told in, or a dash where there is none.
fn say_thresholds<D: Display + Drop, F: Fn(u8) -> D>(
    rt: &impl Print,
    limits: [u8; 4],
    told: F,
) -> io::Result<()>
    requires { F.IsAlwaysCallable told }
{
    rt.print(", thresholds")?;
    for limit in limits {
        if limit == 0 {
            rt.print(" -")?;
        } else {
            print!(rt; " {}", told(limit))?;
        }
    }
    Ok(())
}

fn say_percent_thresholds(rt: &impl Print, limits: [u8; 4]) -> io::Result<()> {
    say_thresholds(rt, limits, |limit| limit)?;
    rt.print(" (half percent)")
}
