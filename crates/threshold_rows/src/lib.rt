// Rows of four threshold bytes in a block: the slots of a page, or the entries of a threshold record.
//
// The rows of a page and of a record are tested alike, so the tests take a block and the place where its rows start.
#![tactic(auto)]

ghost use Rattle.std.specs.Prelude.{◌≡◌, ◌+◌, ◌≤◌, length, Ok};
ghost use Rattle.bits.specs.Choice.{pick};
ghost use Rattle.element.specs.Types.{had};
ghost use Rattle.refusals.specs.declared.Refusal.TheVariants.{NoSuchThreshold, ThresholdOrder};
ghost use Rattle.refusals.specs.Outcomes.{unless};
ghost use Rattle.threshold_rows.specs.Rows.{on_page, in_record, row_place, row_at, HasRows, first_set, byte_tested, had_tested, scanned, seen_tested, rows_tested, slots_tested};

use page::slots::Slot;
use page::{slots, walk};
use refusals::{PageRefusal, Refusal};

// Where the rows start.
pub const ON_PAGE: u16 = 8;

pub const IN_RECORD: u16 = 4;

// What is seen of rows: whether each has only thresholds of its type, and in order.
#[derive(Clone, Copy)]
pub struct Seen {
    pub had: bool,
    pub ordered: bool,
}

fn row_place(start: u16, i: u16) -> u32
    ensures { result ≡ row_place start i }
{
    start as u32 + 4 * i as u32
}

fn row_at(block: &[u8], start: u16, i: u16) -> [u8; 4]
    requires { row_place start i + 4 ≤ length block.now }
    ensures { result ≡ row_at block.now start i }
{
    bits::four_at(block, row_place(start, i))
}

// The first of four bytes that is not zero; 4 if none is.
fn first_set(e: [u8; 4]) -> u8
    ensures { result ≡ first_set e }
{
    if e[0] != 0 {
        0
    } else if e[1] != 0 {
        1
    } else if e[2] != 0 {
        2
    } else if e[3] != 0 {
        3
    } else {
        4
    }
}

// The first byte of a row, an overall one or not, that is refused; 4 if none is.
fn row_offending(overall: bool, e: [u8; 4]) -> u8
    ensures { result ≡ pick overall (first_set e) 4 }
{
    if overall { first_set(e) } else { 4 }
}

// Byte 1 of a page of thresholds.
pub fn test_byte(page: &[u8]) -> Result<(), PageRefusal>
    requires { 4 ≤ length page.now }
    ensures { result ≡ byte_tested page.now }
{
    if bits::byte_at(page, 1) != 0 {
        return refusals::not_allowed(1);
    }
    Ok(())
}

pub fn test_had(configuration: &[u8], block: &[u8], start: u16, n: u16) -> Result<(), Refusal>
    requires { HasRows configuration.now block.now start n }
    ensures { result ≡ had_tested configuration.now block.now start n }
{
    let test = |at: Slot, i: u16| -> Result<(), Refusal>
        requires { row_place start i + 4 ≤ length block.now }
        ensures { result ≡ unless (had at.kind (row_at block.entry.now start i)) NoSuchThreshold (Ok tt) }
    {
        if !element_thresholds::are_had(at.kind, row_at(block, start, i)) {
            return Err(Refusal::NoSuchThreshold);
        }
        Ok(())
    };
    walk::test_slots(configuration, n, test)
}

impl Seen {
    fn test_had(self) -> Result<(), Refusal>
        ensures { result ≡ unless self.had NoSuchThreshold (Ok tt) }
    {
        if !self.had {
            return Err(Refusal::NoSuchThreshold);
        }
        Ok(())
    }

    fn test_order(self) -> Result<(), Refusal>
        ensures { result ≡ unless self.ordered ThresholdOrder (Ok tt) }
    {
        if !self.ordered {
            return Err(Refusal::ThresholdOrder);
        }
        Ok(())
    }

    fn test(self) -> Result<(), Refusal>
        ensures { result ≡ seen_tested self }
    {
        let had = self.test_had();
        let Ok(()) = had else {
            return had;
        };
        self.test_order()
    }
}

// One pass over rows: what is seen of all, or where a refused byte of an overall row stands.
fn scan(configuration: &[u8], block: &[u8], start: u16, n: u16) -> Result<Seen, u32>
    requires { HasRows configuration.now block.now start n }
    ensures { result ≡ scanned configuration.now block.now start n }
{
    let mut had = true;
    let mut ordered = true;
    let mut run = slots::first_run();
    for i in 0..n {
        run = slots::run_to(configuration, run, i);
        let e = row_at(block, start, i);
        let k = row_offending(run.overall, e);
        if k < 4 {
            return Err(row_place(start, i) + k as u32);
        }
        had = had & element_thresholds::are_had(run.kind, e);
        ordered = ordered & element_thresholds::are_ordered(run.kind, e);
    }
    Ok(Seen { had, ordered })
}

// A refused byte of any row is told before a threshold that a type does not have, and that before the order.
pub fn test_page(configuration: &[u8], page: &[u8], n: u16) -> Result<(), PageRefusal>
    requires { HasRows configuration.now page.now on_page n }
    ensures { result ≡ slots_tested configuration.now page.now n }
{
    match scan(configuration, page, ON_PAGE, n) {
        Ok(seen) => refusals::of_page(seen.test()),
        Err(k) => refusals::not_allowed(k),
    }
}

// The same of a record handed in, where no offset is told.
pub fn test_record(configuration: &[u8], fields: &[u8], n: u16) -> Result<(), Refusal>
    requires { HasRows configuration.now fields.now in_record n }
    ensures { result ≡ rows_tested configuration.now fields.now in_record n }
{
    let scanned = scan(configuration, fields, IN_RECORD, n);
    let Ok(seen) = scanned else {
        return Err(Refusal::NotAllowed);
    };
    seen.test()
}
