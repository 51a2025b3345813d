// The element types that are served. What the rules of a type are stands here as one row of numbers for each.
ghost use Rattle.std.specs.Prelude.{◌≡◌};
ghost use Rattle.element.specs.Types.{rules_of, rules_told, code_of, kind_named, kind_of, served, reading_allowed, nominal_allowed};

use crate::layout::Layout;

#[derive(Clone, Copy, PartialEq, Eq, Debug)]
pub enum Kind {
    Cooling,
    Temperature,
    Voltage,
    Current,
}

// How the low two thresholds stand to each other: in no order, low warning at least low critical, or low critical at least low warning.
#[derive(Clone, Copy, PartialEq, Eq, Debug)]
pub enum LowOrder {
    Any,
    WarningAbove,
    CriticalAbove,
}

const COOLING: u8 = 0x03;

const TEMPERATURE: u8 = 0x04;

const VOLTAGE: u8 = 0x12;

const CURRENT: u8 = 0x13;

// What the three sensors share.
const SENSOR_LAYOUT: Layout = Layout {
    flags1: 0xc0,
    flags2: 0,
    flags3: 0,
    speed: 0,
};

// What the code is told of a type. Bits of four bytes stand as the number that these say.
#[derive(Clone, Copy)]
pub(crate) struct TypeRules {
    code: u8,
    // The flags in bytes 1 to 3 of settings, and SPEED in byte 3.
    pub(crate) layout: Layout,
    // The bits that settings have, that a status element may have, and that thresholds may have.
    settings: u32,
    shown: u32,
    thresholds: u32,
    // The bits of the twelve bytes of an entry which the type lays out, four by four, and where the lowest of each stands in a status element.
    shown_first: u32,
    shown_next: u32,
    shown_last: u32,
    shifts_first: u32,
    shifts_next: u32,
    shifts_last: u32,
    low_order: LowOrder,
    most_reading: u16,
    least_nominal: u16,
    most_nominal: u16,
}

impl Kind {
    // Always inlined, so that of all that stands here only the number that is asked for is left.
    #[inline(always)]
    pub(crate) fn rules(self) -> TypeRules
        ensures { result ≡ rules_told self }
    {
        match self {
            Kind::Cooling => TypeRules {
                code: COOLING,
                layout: Layout {
                    flags1: 0x80,
                    flags2: 0,
                    flags3: 0x60,
                    speed: 0x07,
                },
                settings: 0x70800067,
                shown: 0x7f87ff77,
                thresholds: 0,
                shown_first: 0x0107ff01,
                shown_next: 0x01010700,
                shown_last: 0,
                shifts_first: 0x17100806,
                shifts_next: 0x05040000,
                shifts_last: 0,
                low_order: LowOrder::Any,
                most_reading: 2047,
                least_nominal: 0,
                most_nominal: 0,
            },
            Kind::Temperature => TypeRules {
                code: TEMPERATURE,
                layout: SENSOR_LAYOUT,
                settings: 0x70c00000,
                shown: 0x7fc0ff0f,
                thresholds: 0xffffffff,
                shown_first: 0x0101ff01,
                shown_next: 0x01010100,
                shown_last: 0,
                shifts_first: 0x17160803,
                shifts_next: 0x02010000,
                shifts_last: 0,
                low_order: LowOrder::WarningAbove,
                most_reading: 255,
                least_nominal: 0,
                most_nominal: 0,
            },
            Kind::Voltage => TypeRules {
                code: VOLTAGE,
                layout: SENSOR_LAYOUT,
                settings: 0x70c00000,
                shown: 0x7fcfffff,
                thresholds: 0xffffffff,
                shown_first: 0x01010101,
                shown_next: 0x0101ffff,
                shown_last: 0,
                shifts_first: 0x17161312,
                shifts_next: 0x11100800,
                shifts_last: 0,
                low_order: LowOrder::CriticalAbove,
                most_reading: 65535,
                least_nominal: 1,
                most_nominal: 32767,
            },
            Kind::Current => TypeRules {
                code: CURRENT,
                layout: SENSOR_LAYOUT,
                settings: 0x70c00000,
                shown: 0x7fcaffff,
                thresholds: 0xffff0000,
                shown_first: 0x01010101,
                shown_next: 0xffff0000,
                shown_last: 0,
                shifts_first: 0x17161311,
                shifts_next: 0x08000000,
                shifts_last: 0,
                low_order: LowOrder::Any,
                most_reading: 65535,
                least_nominal: 1,
                most_nominal: 32767,
            },
        }
    }

    // Calls f with the type as a constant, so that the compiler makes what f does again for each type.
    #[inline(always)]
    pub fn specialised<R, F: FnOnce(Kind) -> R>(self, f: F) -> R
        requires { F.pre f self }
        ensures { F.post f self result }
    {
        match self {
            Kind::Cooling => f(Kind::Cooling),
            Kind::Temperature => f(Kind::Temperature),
            Kind::Voltage => f(Kind::Voltage),
            Kind::Current => f(Kind::Current),
        }
    }

    pub fn code(self) -> u8
        ensures { result ≡ code_of self }
    {
        self.rules().code
    }

    // The type that a code names, if it is served.
    pub fn from_code(code: u8) -> Option<Kind>
        ensures { result ≡ kind_named code }
    {
        match code {
            COOLING => Some(Kind::Cooling),
            TEMPERATURE => Some(Kind::Temperature),
            VOLTAGE => Some(Kind::Voltage),
            CURRENT => Some(Kind::Current),
            _ => None,
        }
    }

    // The same of a block that is not tested: any other code reads as Current.
    pub fn of(code: u8) -> Kind
        ensures { result ≡ kind_of code }
    {
        Kind::from_code(code).unwrap_or(Kind::Current)
    }

    pub fn is_served(code: u8) -> bool
        ensures { result ≡ served code }
    {
        Kind::from_code(code).is_some()
    }

    // The bits that settings have, as the number that four bytes say.
    pub fn settings(self) -> u32
        ensures { result ≡ (rules_of self).numbers.settings }
    {
        self.rules().settings
    }

    // The bits that the four bytes of a status element may have.
    pub fn shown(self) -> u32
        ensures { result ≡ (rules_of self).numbers.shown }
    {
        self.rules().shown
    }

    // Those that the twelve bytes of an entry may have which the type lays out: the first four of them, the next, the last.
    pub fn shown_first(self) -> u32
        ensures { result ≡ (rules_of self).numbers.shown_first }
    {
        self.rules().shown_first
    }

    pub fn shown_next(self) -> u32
        ensures { result ≡ (rules_of self).numbers.shown_next }
    {
        self.rules().shown_next
    }

    pub fn shown_last(self) -> u32
        ensures { result ≡ (rules_of self).numbers.shown_last }
    {
        self.rules().shown_last
    }

    // The lowest bit of each of these in the number that the four bytes of the status element say; 0 behind the last.
    pub fn shifts_first(self) -> u32
        ensures { result ≡ (rules_of self).numbers.shifts_first }
    {
        self.rules().shifts_first
    }

    pub fn shifts_next(self) -> u32
        ensures { result ≡ (rules_of self).numbers.shifts_next }
    {
        self.rules().shifts_next
    }

    pub fn shifts_last(self) -> u32
        ensures { result ≡ (rules_of self).numbers.shifts_last }
    {
        self.rules().shifts_last
    }

    // The bits that the four threshold bytes may have.
    pub fn thresholds(self) -> u32
        ensures { result ≡ (rules_of self).numbers.thresholds }
    {
        self.rules().thresholds
    }

    pub fn low_order(self) -> LowOrder
        ensures { result ≡ (rules_of self).low_order }
    {
        self.rules().low_order
    }

    pub fn may_read(self, reading: u16) -> bool
        ensures { result ≡ reading_allowed self reading }
    {
        reading <= self.rules().most_reading
    }

    pub fn may_have_nominal(self, nominal: u16) -> bool
        ensures { result ≡ nominal_allowed self nominal }
    {
        let rules = self.rules();
        (rules.least_nominal <= nominal) & (nominal <= rules.most_nominal)
    }
}
