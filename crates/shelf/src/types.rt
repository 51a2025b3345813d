// The types of a shelf: type t by its number, and the type of one element after the other.
ghost use Rattle.std.specs.Prelude.{◌≡◌, true, ◌≤◌};
ghost use Rattle.bits.specs.Choice.{all_below};
ghost use Rattle.shelf.specs.Limits.{most_types, HasTypes, HasType, HasElement};
ghost use Rattle.shelf.specs.Types.{type_code, type_count, text_length, types_of, elements_of, before, ended_by, run_with, run_at, carried};

use crate::limits;
use element::types::Kind;

// How many types the block says it has.
pub fn count(shelf: &[u8]) -> u16
    requires { HasTypes shelf.now }
    ensures { result ≡ types_of shelf.now }
{
    bits::byte_at(shelf, limits::TYPES) as u16
}

pub fn code_of(shelf: &[u8], t: u16) -> u8
    requires { HasType shelf.now t }
    ensures { result ≡ type_code shelf.now t }
{
    bits::byte_at(shelf, limits::type_place(t))
}

// How many elements type t has.
pub fn elements_of(shelf: &[u8], t: u16) -> u8
    requires { HasType shelf.now t }
    ensures { result ≡ type_count shelf.now t }
{
    bits::byte_at(shelf, limits::type_place(t) + 1)
}

pub fn text_length(shelf: &[u8], t: u16) -> u8
    requires { HasType shelf.now t }
    ensures { result ≡ text_length shelf.now t }
{
    bits::byte_at(shelf, limits::type_place(t) + 2)
}

// How many elements the first n types have.
pub fn elements_before(shelf: &[u8], n: u16) -> u16
    requires has_types { HasTypes shelf.now }
    requires n_le_most_types { n ≤ most_types }
    ensures { result ≡ before shelf.now n }
{
    let mut sum: u16 = 0;
    for t in 0..n {
        sum += elements_of(shelf, t) as u16;
    }
    sum
}

// How many elements all types have.
pub fn all_elements(shelf: &[u8]) -> u16
    requires { HasTypes shelf.now }
    ensures { result ≡ elements_of shelf.now }
{
    elements_before(shelf, limits::MOST_TYPES)
}

// A type with its elements: those from `before` up to `end`. Its number is wide: eight bytes the compiler would pack into one register and
// take apart again at each turn of a loop.
#[derive(Clone, Copy)]
pub struct Run {
    pub kind: Kind,
    pub number: u32,
    pub before: u16,
    pub end: u16,
}

// Type t with its elements, as told.
fn run_with(shelf: &[u8], number: u16, before: u16, end: u16) -> Run
    requires { HasType shelf.now number }
    ensures { result ≡ run_with shelf.now number before end }
{
    let kind = Kind::of(code_of(shelf, number));
    Run {
        kind,
        number: number as u32,
        before,
        end,
    }
}

// The run of element j, from type t on, all types before which end before it.
fn run_from(shelf: &[u8], t: u16, start: u16, j: u16) -> Run
    requires has_element { HasElement shelf.now j }
    requires t_le_most_types { t ≤ most_types }
    requires start_value { start ≡ before shelf.now t }
    requires t_value { all_below (ended_by shelf.now j) t ≡ true }
    ensures { result ≡ run_at shelf.now j }
{
    let mut before = start;
    for number in t..limits::MOST_TYPES {
        let end = before + elements_of(shelf, number) as u16;
        if j < end {
            return run_with(shelf, number, before, end);
        }
        before = end;
    }
    let end = before + elements_of(shelf, limits::MOST_TYPES) as u16;
    run_with(shelf, limits::MOST_TYPES, before, end)
}

// The run of element j, without a walk.
pub fn run_of(shelf: &[u8], j: u16) -> Run
    requires { HasElement shelf.now j }
    ensures { result ≡ run_at shelf.now j }
{
    run_from(shelf, 0, 0, j)
}

// The first type, from which a walk starts.
pub fn first_run(shelf: &[u8]) -> Run
    requires { HasTypes shelf.now }
    ensures { result ≡ carried shelf.now 0 }
{
    let end = elements_of(shelf, 0) as u16;
    run_with(shelf, 0, 0, end)
}

// The run of element j, from that of the element before it, or from the first type.
pub fn run_to(shelf: &[u8], run: Run, j: u16) -> Run
    requires has_element { HasElement shelf.now j }
    requires run_value { run ≡ carried shelf.now j }
    ensures { result ≡ run_at shelf.now j }
{
    if j < run.end {
        return run;
    }
    run_from(shelf, run.number as u16, run.before, j)
}
