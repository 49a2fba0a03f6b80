// The machine: up to eight districts, by value. "Empty at first."
ghost use Rattle.std.specs.Prelude.{◌≡◌};
ghost use Rattle.district_machine.specs.Machine.{empty_district, empty_machine};

use held_file::Held;
use held_file::file::no_file;
use tree_search::trees::{Reached, nothing_held};

// A district that is not finished: its place; its plan, as a file; its budget; and how far it is.
#[derive(Clone, Copy)]
pub struct District {
    pub place: u8,
    pub plan: Held,
    pub budget: u32,
    pub held: Reached,
}

// The districts in the order of the line, its front first: the first `waiting` of eight.
#[derive(Clone, Copy)]
pub struct Machine {
    pub line: [District; 8],
    pub waiting: usize,
}

// What stands behind the line.
pub(crate) fn no_district() -> District
    ensures { result ≡ empty_district }
{
    District {
        place: 0,
        plan: no_file(),
        budget: 0,
        held: nothing_held(),
    }
}

// THE EMPTY MACHINE.
pub fn empty() -> Machine
    ensures { result ≡ empty_machine }
{
    Machine {
        line: [no_district(); 8],
        waiting: 0,
    }
}
