// What a page has for element j: a slot of its own, and the overall slot of its type.
ghost use Rattle.std.specs.Prelude.{◌≡◌, ◌≤◌};
ghost use Rattle.shelf.specs.Limits.{most_types};
ghost use Rattle.page.specs.Places.{places_in};

use element::types::Kind;
use shelf::types::Run;

// The type of the element, and where on the page the two slots stand.
#[derive(Clone, Copy)]
pub struct Places {
    pub kind: Kind,
    pub overallplace: u32,
    pub ownplace: u32,
}

pub fn places_in(run: Run, j: u16) -> Places
    requires { run.number ≤ most_types }
    ensures { result ≡ places_in run j }
{
    let kind = run.kind;
    Places {
        kind,
        overallplace: 8 + 4 * (run.before as u32 + run.number),
        ownplace: 8 + 4 * (j as u32 + run.number + 1),
    }
}
