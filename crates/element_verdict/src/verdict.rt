// What follows from a reading: the status code and the four limit bits.
ghost use Rattle.std.specs.Prelude.{◌≡◌, ◌+◌, ◌%◌};
ghost use Rattle.element.specs.Verdict.{code_for, unlimited, judged, above, below, over, under, fan_verdict, temperature_verdict, voltage_verdict, current_verdict};
ghost use Rattle.element.specs.declared.types.Kind.TheVariants.{Cooling};
ghost use Rattle.element.specs.Types.{is_on};
ghost use Rattle.element.specs.Settings.{settings_of};

use element::verdict::Verdict;

fn code_for(critical: bool, warning: bool) -> u8
    ensures { result ≡ code_for critical warning }
{
    if critical {
        2
    } else if warning {
        3
    } else {
        1
    }
}

// A code without a limit bit.
fn unlimited(code: u8) -> Verdict
    ensures { result ≡ unlimited code }
{
    Verdict {
        code,
        highcrit: false,
        highwarn: false,
        lowwarn: false,
        lowcrit: false,
    }
}

fn judged(highcrit: bool, highwarn: bool, lowwarn: bool, lowcrit: bool) -> Verdict
    ensures { result ≡ judged highcrit highwarn lowwarn lowcrit }
{
    let code = code_for(highcrit | lowcrit, highwarn | lowwarn);
    Verdict {
        code,
        highcrit,
        highwarn,
        lowwarn,
        lowcrit,
    }
}

fn above(reading: u16, limit: u8) -> bool
    ensures { result ≡ above reading limit }
{
    (limit != 0) & ((limit as u16) < reading)
}

fn below(reading: u16, limit: u8) -> bool
    ensures { result ≡ below reading limit }
{
    (limit != 0) & (reading < limit as u16)
}

// A signed reading plus 32,768, so that no number is below 0.
pub fn lifted(reading: u16) -> u32
    ensures { result ≡ (reading + 32768) % 65536 }
{
    (reading as u32 + 32768) % 65536
}

fn over(reading: u16, nominal: u16, limit: u8) -> bool
    ensures { result ≡ over reading nominal limit }
{
    let n = nominal as u32;
    (limit != 0) & (n * limit as u32 + 200 * (n + 32768) < 200 * lifted(reading))
}

fn under(reading: u16, nominal: u16, limit: u8) -> bool
    ensures { result ≡ under reading nominal limit }
{
    let n = nominal as u32;
    (limit != 0) & (n * limit as u32 + 200 * lifted(reading) < 200 * (n + 32768))
}

// Byte 3 bit 5 is ON.
pub fn of_fan(stored: [u8; 4], reading: u16) -> Verdict
    ensures { result ≡ fan_verdict (is_on (settings_of Cooling stored)) reading }
{
    let on = stored[3] >> 5 & 1 == 1;
    unlimited(code_for(on & (reading == 0), false))
}

// Byte 0 is no reading, and no temperature.
pub fn of_temperature(reading: u16, t: [u8; 4]) -> Verdict
    ensures { result ≡ temperature_verdict reading t }
{
    if reading == 0 {
        unlimited(6)
    } else {
        judged(
            above(reading, t[0]),
            above(reading, t[1]),
            below(reading, t[2]),
            below(reading, t[3]),
        )
    }
}

pub fn of_voltage(reading: u16, nominal: u16, t: [u8; 4]) -> Verdict
    ensures { result ≡ voltage_verdict reading nominal t }
{
    judged(
        over(reading, nominal, t[0]),
        over(reading, nominal, t[1]),
        under(reading, nominal, t[2]),
        under(reading, nominal, t[3]),
    )
}

pub fn of_current(reading: u16, nominal: u16, t: [u8; 4]) -> Verdict
    ensures { result ≡ current_verdict reading nominal t }
{
    judged(
        over(reading, nominal, t[0]),
        over(reading, nominal, t[1]),
        false,
        false,
    )
}
