// Hierholzer's walk: the legs in the order of one closed walk.
// Steps for other crates, which ask something of their caller.
ghost use Rattle.std.specs.Prelude.{◌≡◌, ℕ, ◌<◌, ◌≤◌, not, ◌&&◌, length, T, eqb};
ghost use Rattle.hierholzer.specs.Circuit.{circuit};
ghost use Rattle.hierholzer.specs.Eulerian.{Eulerian};
ghost use Rattle.hierholzer.specs.Held.{HeldPath, Stepped, Hints, is_unused, first_unused};

// How far the walk reaches from the start of the places, and where the placed legs begin.
#[derive(Clone, Copy)]
struct Progress {
    depth: usize,
    start: usize,
}

// Whether a leg with this tail and flag is an unused one out of v.
fn is_unused(tail: u8, flag: u8, v: u8) -> bool
    ensures { result ≡ (eqb tail v && eqb flag 0) }
{
    tail == v && flag == 0
}

// The first unused leg out of v, where none is before `from`; the number of legs where there is none.
fn next_leg(tails: &[u8], used: &[u8; 526], v: u8, from: usize) -> usize
    requires { (length tails.now ≤ 526) × (from ≤ length tails.now)
        × ((k : ℕ) → k < from → T (not (is_unused tails.now used.now v k))) }
    ensures { result ≡ first_unused tails.now used.now v }
{
    for e in from..tails.len() {
        if is_unused(tails[e], used[e], v) {
            return e;
        }
    }
    tails.len()
}

// The same, from the hint of v on, which then says where it was found: legs do not become unused again.
fn find_leg(tails: &[u8], used: &[u8; 526], hints: &mut [u16; 256], v: u8) -> usize
    requires { (length tails.now ≤ 526) × Hints tails.now used.now hints.old }
    ensures { (result ≡ first_unused tails.now used.now v)
        × Hints tails.now used.now hints.new }
{
    let i = usize::from(v);
    let e = next_leg(tails, used, v, usize::from(hints[i]));
    hints[i] = e as u16;
    e
}

// One step: a leg more is walked, or the walk's last leg is placed.
fn advance(
    tails: &[u8],
    heads: &[u8],
    order: &mut [u16],
    used: &mut [u8; 526],
    hints: &mut [u16; 256],
    at: Progress,
) -> Progress
    requires { (length tails.now ≤ 526) × (length heads.now ≡ length tails.now) × (0 < at.depth)
        × HeldPath tails.now order.old used.old at.depth at.start × Hints tails.now used.old hints.old }
    ensures { Stepped tails.now heads.now order.old at.depth at.start order.new used.new
        result.depth result.start × Hints tails.now used.new hints.new }
{
    let Progress { depth, start } = at;
    let k = order[depth - 1];
    let i = usize::from(k);
    let e = find_leg(tails, used, hints, heads[i]);
    if e < tails.len() {
        order[depth] = e as u16;
        used[e] = 1;
        return Progress {
            depth: depth + 1,
            start,
        };
    }
    order[start - 1] = k;
    Progress {
        depth: depth - 1,
        start: start - 1,
    }
}

// The legs' numbers in the order of the circuit.
pub fn arrange(tails: &[u8], heads: &[u8], order: &mut [u16])
    requires { (length tails.now ≤ 526) × (length order.old ≡ length tails.now) × Eulerian tails.now heads.now }
    ensures { order.new ≡ circuit tails.now heads.now }
{
    let mut used = [0u8; 526];
    let mut hints = [0u16; 256];
    used[0] = 1;
    order[0] = 0;
    let mut at = Progress {
        depth: 1,
        start: tails.len(),
    };
    while 0 < at.depth {
        at = advance(tails, heads, order, &mut used, &mut hints, at);
    }
}
