// The candidate links of a network's components in arrays, one component after the other.
// Steps for other crates, which ask something of their caller.
#![tactic(auto)]

ghost use Rattle.std.specs.Prelude.{◌≡◌, false, ◌++◌, ◌+◌, ◌/◌, ◌%◌, ◌≤◌, length, get_or, take};
ghost use Rattle.postman.specs.Lists.{select, below};
ghost use Rattle.postman.specs.Plan.{Plan, WellFormed};
ghost use Rattle.network.specs.Network.{IsNetwork};
ghost use Rattle.candidates.specs.Holds.{Holds};
ghost use Rattle.candidates.specs.Places.{enters, places_of, AreGrouped, AreEnds, HaveEnds};
ghost use Rattle.candidates.specs.LaidOut.{AreLaidOut};

use network::network::Network;

// ---- the required vertices

#[derive(Clone, Copy)]
pub struct Vertices {
    pub list: [u8; 64],
    pub count: usize,
    pub ghost fits: { count ≤ 64 },
}

// The vertices whose flag is set, ascending.
pub fn vertices_of(required: [bool; 64]) -> Vertices
    ensures { Holds 64 result.list result.count (select (λ v. get_or required v false) (below 64)) }
{
    let mut list = [0; 64];
    let mut count = 0;
    for (v, &is_required) in required.iter().enumerate() {
        if is_required {
            list[count] = v as u8;
            count += 1;
        }
    }
    Vertices { list, count }
}

// ---- the places of the candidates

#[derive(Clone, Copy)]
struct Places {
    list: [u16; 4096],
    count: usize,
}

// A link whose head is in component q and whose tail is in another.
fn is_candidate(link: bool, tail: u8, head: u8, q: usize) -> bool
    ensures { result ≡ enters link tail head q }
{
    link && usize::from(head) == q && usize::from(tail) != q
}

impl Places {
    // The places of component q's candidates come behind those that are there.
    fn scan(&mut self, links: &[bool; 4096], component: &[u8; 64], q: usize)
        requires { (self.old.count + length (places_of links.now component.now q) ≤ 4096) × (length self.old.list ≡ 4096) }
        ensures { Holds 4096 self.new.list self.new.count (take self.old.count self.old.list ++ places_of links.now component.now q) }
    {
        for (x, &link) in links.iter().enumerate() {
            if is_candidate(link, component[x / 64], component[x % 64], q) {
                self.list[self.count] = x as u16;
                self.count += 1;
            }
        }
    }
}

#[derive(Clone, Copy)]
struct Grouped {
    start: [usize; 9],
    list: [u16; 4096],
}

// The places of the candidates of components 1 to k − 1, one component after the other.
fn group(links: &[bool; 4096], component: &[u8; 64], k: usize) -> Grouped
    requires { (1 ≤ k) × (k ≤ 8) }
    ensures { AreGrouped links.now component.now k result.start result.list }
{
    let mut start = [0; 9];
    let mut places = Places {
        list: [0; 4096],
        count: 0,
    };
    for q in 1..k {
        places.scan(links, component, q);
        start[q + 1] = places.count;
    }
    Grouped {
        start,
        list: places.list,
    }
}

// ---- the ends of the candidates

fn tail_of(x: u16) -> u8
    ensures { result ≡ x / 64 % 64 }
{
    (x / 64 % 64) as u8
}

fn head_of(x: u16) -> u8
    ensures { result ≡ x % 64 }
{
    (x % 64) as u8
}

#[derive(Clone, Copy)]
struct Ends {
    source: [u8; 4096],
    tails: [u8; 4096],
    heads: [u8; 4096],
}

// The ends of the pair at each place of the list, and the component of its tail.
fn ends_of(list: &[u16; 4096], component: &[u8; 64]) -> Ends
    ensures { AreEnds component.now list.now 4096 result.source result.tails result.heads }
{
    let mut source = [0; 4096];
    let mut tails = [0; 4096];
    let mut heads = [0; 4096];
    for (m, &x) in list.iter().enumerate() {
        let tail = tail_of(x);
        tails[m] = tail;
        heads[m] = head_of(x);
        source[m] = component[usize::from(tail)];
    }
    Ends {
        source,
        tails,
        heads,
    }
}

// ---- all of it

#[derive(Clone, Copy)]
pub struct Candidates {
    // where the candidates of each component begin; those of component q end where those of q + 1 begin
    pub start: [usize; 9],
    // the component of each candidate's tail
    pub source: [u8; 4096],
    // the ends of each candidate
    pub tails: [u8; 4096],
    pub heads: [u8; 4096],
}

fn candidates_of(links: &[bool; 4096], component: &[u8; 64], k: usize) -> Candidates
    requires { (1 ≤ k) × (k ≤ 8) }
    ensures { HaveEnds links.now component.now k result.start result.source result.tails result.heads }
{
    let Grouped { start, list } = group(links, component, k);
    let Ends {
        source,
        tails,
        heads,
    } = ends_of(&list, component);
    Candidates {
        start,
        source,
        tails,
        heads,
    }
}

// The candidates of a network, for whatever plan it is the network of.
pub fn of_network(net: Network) -> Candidates
    requires { (1 ≤ net.components) × (net.components ≤ 8) }
    ensures { (p : Plan) → WellFormed p → IsNetwork p net → AreLaidOut p result }
{
    candidates_of(&net.links, &net.component, usize::from(net.components))
}
