// What a shelf shows: each element by itself, each type by its worst element, and the page by all.
#![tactic(auto)]

ghost use Rattle.std.specs.Prelude.{◌≡◌, true, ◌≤◌, length};
ghost use Rattle.element.specs.Status.{status_bytes};
ghost use Rattle.shelf.specs.Limits.{element_place, HasElement};
ghost use Rattle.shelf_formed.specs.Formed.{well_formed};
ghost use Rattle.shelf_status.specs.ShelfStatus.{shown_at, code_at, worse, worst, bits_with, page_bits, bits_byte};

use element::types::Kind;
use shelf::{elements, types};

// The two bits of a status page that tell of all its elements.
#[derive(Clone, Copy)]
pub struct PageBits {
    pub noncritical: bool,
    pub critical: bool,
}

impl PageBits {
    pub fn of(shelf: &[u8]) -> PageBits
        requires { well_formed shelf.now ≡ true }
        ensures { result ≡ page_bits shelf.now }
    {
        let n = types::all_elements(shelf);
        let mut seen = PageBits {
            noncritical: false,
            critical: false,
        };
        let mut run = types::first_run(shelf);
        for j in 0..n {
            run = types::run_to(shelf, run, j);
            seen = seen.with(code_at(shelf, run.kind, j));
        }
        seen
    }

    // The bits after one more element, which has this code.
    fn with(self, code: u8) -> PageBits
        ensures { result ≡ bits_with self code }
    {
        match code {
            2 => PageBits {
                noncritical: self.noncritical,
                critical: true,
            },
            3 => PageBits {
                noncritical: true,
                critical: self.critical,
            },
            _ => self,
        }
    }

    // Byte 1 of the page.
    pub fn byte(self) -> u8
        ensures { result ≡ bits_byte self }
    {
        bits::nibble(false, self.noncritical, self.critical, false)
    }
}

// The status element of element j.
pub fn status_at(shelf: &[u8], kind: Kind, j: u16) -> [u8; 4]
    requires { HasElement shelf.now j }
    ensures { result ≡ status_bytes kind (shown_at shelf.now kind j) }
{
    let stored = elements::settings_at(shelf, j);
    let reading = elements::reading_at(shelf, j);
    let nominal = elements::nominal_at(shelf, j);
    element_status::types::status(
        kind,
        stored,
        reading,
        nominal,
        elements::thresholds_at(shelf, j),
    )
}

// Its status code.
fn code_at(shelf: &[u8], kind: Kind, j: u16) -> u8
    requires { HasElement shelf.now j }
    ensures { result ≡ code_at shelf.now kind j }
{
    let e = status_at(shelf, kind, j);
    e[0] % 16
}

fn worse(a: u8, b: u8) -> u8
    ensures { result ≡ worse a b }
{
    if (a == 2) | (b == 2) {
        2
    } else if (a == 3) | (b == 3) {
        3
    } else if (a == 6) | (b == 6) {
        6
    } else if (a == 1) | (b == 1) {
        1
    } else {
        0
    }
}

// The worst code of the elements from `first` up to `end`.
pub fn worst(shelf: &[u8], kind: Kind, first: u16, end: u16) -> u8
    requires { element_place end ≤ length shelf.now }
    ensures { result ≡ worst shelf.now kind first end }
{
    let mut code: u8 = 0;
    for j in first..end {
        code = worse(code, code_at(shelf, kind, j));
    }
    code
}
