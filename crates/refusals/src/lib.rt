// The refusals: the error of a call's answer. What a call answers is a Result, with nothing, a count, or what it found.
//
// A refusal is a value with a number; every promise speaks of the value, and `number_of` says which number it is.
#![tactic(auto)]

ghost use Rattle.std.specs.Prelude.{◌≡◌, Ok};
ghost use Rattle.refusals.specs.Numbers.{number_of, answer_number, page_number, offset_after};
ghost use Rattle.refusals.specs.Outcomes.{of_page, not_allowed_at, offence_tested, fitted};

#[derive(Clone, Copy)]
pub enum Refusal {
    ShelfNotWellFormed,
    PageTooShort,
    PageCode,
    PageLength,
    Generation,
    NotAllowed,
    NoSuchThreshold,
    ThresholdOrder,
    WantedList,
    Unreachable,
    OutputTooShort,
    NeededLength,
    NoSuchElement,
}

// Why a page is refused, and where: the offset of the first offending byte if it is not allowed. Else 0, where the page code stands,
// which is never told so.
#[derive(Clone, Copy)]
pub struct PageRefusal {
    pub refusal: Refusal,
    pub offset: u32,
}

impl Refusal {
    pub fn number(self) -> u8
        ensures { result ≡ number_of self }
    {
        match self {
            Refusal::ShelfNotWellFormed => 1,
            Refusal::PageTooShort => 2,
            Refusal::PageCode => 3,
            Refusal::PageLength => 4,
            Refusal::Generation => 5,
            Refusal::NotAllowed => 6,
            Refusal::NoSuchThreshold => 7,
            Refusal::ThresholdOrder => 8,
            Refusal::WantedList => 9,
            Refusal::Unreachable => 10,
            Refusal::OutputTooShort => 11,
            Refusal::NeededLength => 12,
            Refusal::NoSuchElement => 15,
        }
    }
}

// Tests that tell no offset refuse a page as a whole.
impl From<Refusal> for PageRefusal {
    ghost from_gives = { λ r p. p ≡ record { refusal = r; offset = 0 } };

    fn from(refusal: Refusal) -> PageRefusal {
        PageRefusal { refusal, offset: 0 }
    }
}

// The refusal's number, or 0.
pub fn number<T: Copy>(answer: Result<T, Refusal>) -> u8
    ensures { result ≡ answer_number answer }
{
    let Err(refusal) = answer else {
        return 0;
    };
    refusal.number()
}

// The same of a page. The offset is set where it is refused.
pub fn tell(answer: Result<(), PageRefusal>, offset: &mut u32) -> u8
    ensures value { result ≡ page_number answer }
    ensures offset_after { offset.new ≡ offset_after answer offset.old }
{
    let Err(told) = answer else {
        return 0;
    };
    *offset = told.offset;
    told.refusal.number()
}

// Of a page: the answer of tests that tell no offset.
pub fn of_page(answer: Result<(), Refusal>) -> Result<(), PageRefusal>
    ensures { result ≡ of_page answer }
{
    answer.map_err(PageRefusal::from)
}

// The first offending byte of a page stands at k.
pub fn not_allowed(k: u32) -> Result<(), PageRefusal>
    ensures { result ≡ not_allowed_at k }
{
    let refusal = Refusal::NotAllowed;
    Err(PageRefusal { refusal, offset: k })
}

// What a search for the first offending byte of n comes to that stopped at k.
pub fn searched(k: u32, n: u32) -> Result<(), PageRefusal>
    ensures { result ≡ offence_tested k n (Ok tt) }
{
    if k != n {
        return not_allowed(k);
    }
    Ok(())
}

// Whether a page of so many bytes is written into an output buffer of this length.
pub fn fit(bytes: u32, room: usize) -> Result<u32, Refusal>
    ensures { result ≡ fitted bytes room }
{
    if bytes as usize <= room {
        Ok(bytes)
    } else {
        Err(Refusal::OutputTooShort)
    }
}
