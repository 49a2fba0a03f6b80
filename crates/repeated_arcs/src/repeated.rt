// 13 repeated: whether two arcs agree in all their fields. Each arc is packed into one number, and every pair of numbers is compared.
// Steps for other crates, which ask something of their caller.
ghost use Rattle.std.specs.Prelude.{◌≡◌, true, false, cond, map, ℕ, ◌<◌, ◌≤◌, length, get_or};
ghost use Rattle.std.proofs.Math.Option.{none, some};
ghost use Rattle.postman.specs.Lists.{below};
ghost use Rattle.postman.specs.PlanFile.{IsRecord, has_repeated};
ghost use Rattle.refusal.specs.Verdict.{verdict_number};
ghost use Rattle.plan.specs.Records.{arc_value, record_at};
ghost use Rattle.repeated_arcs.specs.Packed.{packed_arc};

use plan::Arc;
use refusal::{Refusal, Verdict};

// An arc as one number.
fn packed(a: Arc) -> u64
    ensures { (result ≡ packed_arc (arc_value a)) × IsRecord (arc_value a) }
{
    u64::from(a.tail) * 281_474_976_710_656
        + u64::from(a.head) * 1_099_511_627_776
        + u64::from(a.standing) * 4_294_967_296
        + u64::from(a.cost) * 65_536
        + u64::from(a.service)
}

// The first m arcs as numbers.
fn packed_arcs(arcs: [Arc; 256], m: usize) -> [u64; 256]
    requires { m ≤ 256 }
    ensures { (length result ≡ 256) × ((k : ℕ) → k < m → (get_or result k 0 ≡ packed_arc (record_at arcs k))
        × IsRecord (record_at arcs k)) }
{
    let mut numbers = [0u64; 256];
    for (k, a) in arcs[..m].iter().enumerate() {
        numbers[k] = packed(*a);
    }
    numbers
}

// Whether x stands before place n.
fn stands_before(numbers: &[u64; 256], n: usize, x: u64) -> bool
    requires { n ≤ 256 }
    ensures found { result ≡ true → (j : ℕ) × (j < n) × (get_or numbers.now j 0 ≡ x) }
    ensures absent { result ≡ false → (j : ℕ) → j < n → get_or numbers.now j 0 ≡ x → ⊥ }
{
    numbers[..n].contains(&x)
}

// Whether two of the first m arcs agree.
fn has_repeated(arcs: [Arc; 256], m: usize) -> bool
    requires { m ≤ 256 }
    ensures { result ≡ has_repeated (map (record_at arcs) (below m)) }
{
    let numbers = packed_arcs(arcs, m);
    for k in 0..m {
        let x = numbers[k];
        if stands_before(&numbers, k, x) {
            return true;
        }
    }
    false
}

// The verdict on all arcs together, once each of them has passed.
pub fn repeated_verdict(arcs: [Arc; 256], m: usize) -> Verdict
    requires { m ≤ 256 }
    ensures { verdict_number result ≡ cond (has_repeated (map (record_at arcs) (below m))) (some 13) none }
{
    if has_repeated(arcs, m) {
        return Err(Refusal::Repeated);
    }
    Ok(())
}
