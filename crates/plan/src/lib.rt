// The plan by value: what every layer above the plan file works on.
#![tactic(auto)]

pub mod good_plan; // a plan as a good file holds it
pub mod rows; // the arcs as rows of numbers, which can be lent

ghost use Rattle.std.specs.Prelude.{◌≡◌};
ghost use Rattle.postman.specs.Plan.{is_open, is_required_arc};
ghost use Rattle.plan.specs.Standings.{standing_of};
ghost use Rattle.plan.specs.Records.{arc_value};

// "A record has tail, head and standing of 8 bits each and a cost of 16"; and so has a service cost (document 02: the checking cost).
#[derive(Clone, Copy, Debug, PartialEq, Eq)]
pub struct Arc {
    pub tail: u8,
    pub head: u8,
    pub standing: u8,
    pub cost: u16,
    pub service: u16,
}

impl Arc {
    // What stands behind the last arc.
    pub const ZERO: Arc = Arc {
        tail: 0,
        head: 0,
        standing: 0,
        cost: 0,
        service: 0,
    };
}

// n vertices, and m arcs in the records before the mth.
#[derive(Clone, Copy)]
pub struct Plan {
    pub n: u8,
    pub m: u16,
    pub arcs: [Arc; 256],
}

// "Standing 0: may be driven; 1: must be driven; 2: closed […]; 3 is refused."
#[derive(Clone, Copy, Debug, PartialEq, Eq)]
pub enum Standing {
    May,
    Must,
    Closed,
    Refused,
}

// The standing of any number, be it of a file's two bits or of a record's eight.
impl From<u32> for Standing {
    ghost from_gives = { λ s k. k ≡ standing_of s };

    fn from(s: u32) -> Standing
        ensures { result ≡ standing_of s }
    {
        match s {
            0 => Standing::May,
            1 => Standing::Must,
            2 => Standing::Closed,
            3..=u32::MAX => Standing::Refused,
        }
    }
}

// On a record's field of eight bits.
pub fn record_standing(a: Arc) -> Standing
    ensures { result ≡ standing_of a.standing }
{
    Standing::from(u32::from(a.standing))
}

// Whether the arc may be driven.
pub fn is_open(a: Arc) -> bool
    ensures { result ≡ is_open (arc_value a) }
{
    matches!(record_standing(a), Standing::May | Standing::Must)
}

// Whether the arc must be driven.
pub fn is_required(a: Arc) -> bool
    ensures { result ≡ is_required_arc (arc_value a) }
{
    record_standing(a) == Standing::Must
}
