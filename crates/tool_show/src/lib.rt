// What a well-formed shelf holds, in words: its head, its types, and the elements of each; the names that a page for it tells, and what
// a page has at a place. Of any other block nothing is said.
#![tactic(auto)]

pub mod named;
pub mod place;
mod words;

ghost use Rattle.std.specs.Prelude.{◌≡◌, true, ◌<◌, ◌≤◌, length};
ghost use Rattle.shelf.specs.Limits.{most_types, most_elements, block_length};
ghost use Rattle.shelf.specs.Types.{types_of, elements_of};
ghost use Rattle.shelf_formed.specs.Formed.{well_formed};

use element::types::Kind;
use shelf::{limits, types};
use std::io;
use tool_print::{Counted, Hex, Quoted};
use words::{name_at, part};

// A well-formed shelf, with the numbers of its types and elements.
#[derive(Clone, Copy)]
struct Formed<'a> {
    block: &'a [u8],
    types: u16,
    elements: u16,
    ghost formed: { well_formed block.now ≡ true },
    ghost types_value: { types ≡ types_of block.now },
    ghost elements_value: { elements ≡ elements_of block.now },
    ghost types_few: { types ≤ most_types },
    ghost elements_few: { elements ≤ most_elements },
    ghost length_value: { length block.now ≡ block_length types elements },
}

pub fn contents(rt: &impl Print, shelf: &[u8]) -> io::Result<()> {
    let Some(shelf) = Formed::open(shelf) else {
        return Ok(());
    };
    shelf.say_sizes(rt)?;
    shelf.say_identification(rt)?;
    for t in 0..shelf.types {
        shelf.show_type(rt, t)?;
    }
    Ok(())
}

// The first type alone.
pub fn first_type(rt: &impl Print, shelf: &[u8]) -> io::Result<()> {
    match Formed::open(shelf) {
        Some(shelf) => shelf.show_type(rt, 0),
        None => Ok(()),
    }
}

impl<'a> Formed<'a> {
    fn open(block: &'a [u8]) -> Option<Formed<'a>> {
        let sizes = shelf_formed::open_shelf(block)?;
        Some(Formed {
            block,
            types: sizes.types,
            elements: sizes.elements,
        })
    }

    fn say_sizes(self, rt: &impl Print) -> io::Result<()> {
        println!(rt;
            "generation {}, {}, {}",
            bits::big32_at(self.block, limits::GENERATION),
            Counted(self.types as usize, "type"),
            Counted(self.elements as usize, "element"),
        )
    }

    fn say_identification(self, rt: &impl Print) -> io::Result<()> {
        println!(rt;
            "logical identifier {}, vendor {}, product {}, revision {}",
            Hex(part(self.block, limits::LOGICAL_IDENTIFIER, 8)),
            Quoted(part(self.block, limits::VENDOR, 8)),
            Quoted(part(self.block, limits::PRODUCT, 16)),
            Quoted(part(self.block, limits::REVISION, 4)),
        )
    }

    fn show_type(self, rt: &impl Print, t: u16) -> io::Result<()>
        requires { t < self.types }
    {
        self.say_type(rt, t)?;
        self.say_overall_name(rt, t)?;
        self.show_elements(rt, t)
    }

    fn say_type(self, rt: &impl Print, t: u16) -> io::Result<()>
        requires { t < self.types }
    {
        let code = types::code_of(self.block, t);
        let length = types::text_length(self.block, t);
        print!(rt;
            "type {t}: {} ({code:02X}h) {}, {}",
            words::kind_name(Kind::of(code)),
            Quoted(part(self.block, limits::text_place(t), length as u32)),
            Counted(types::elements_of(self.block, t) as usize, "element"),
        )
    }

    // The first of the names of type t.
    fn say_overall_name(self, rt: &impl Print, t: u16) -> io::Result<()>
        requires { t < self.types }
    {
        let i = types::elements_before(self.block, t) + t;
        println!(rt;
            ", overall {}",
            Quoted(name_at(self.block, limits::name_place(self.elements, i)))
        )
    }

    // The elements of type t. The names of the types up to this one stand before theirs.
    fn show_elements(self, rt: &impl Print, t: u16) -> io::Result<()>
        requires { t < self.types }
    {
        let mut run = types::first_run(self.block);
        for j in 0..self.elements {
            run = types::run_to(self.block, run, j);
            if run.number == t as u32 {
                let name = limits::name_place(self.elements, j + t + 1);
                words::show(rt, self.block, run.kind, j, name)?;
            }
        }
        Ok(())
    }
}
