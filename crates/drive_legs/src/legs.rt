// The legs of a drive, side by side: required arcs, links of the arborescence, units of the amounts.
// Steps for other crates, which ask something of their caller.
ghost use Rattle.std.specs.Prelude.{◌≡◌, ◌+◌, ◌≤◌, ◌<◌, length, replicate, take};
ghost use Rattle.postman.specs.Plan.{required_numbers};
ghost use Rattle.plan.specs.GoodPlan.{good_plan};
ghost use Rattle.plan.specs.Records.{arc_value};
ghost use Rattle.drive_legs.specs.Legs.{units};
ghost use Rattle.drive_legs.specs.Filled.{LegLists, no_legs, Added, AddedArc, Noted, Laid, links_of};

use plan::Arc;
use plan::good_plan::GoodPlan;
use std::marker::Model;

// There are `count` legs. The first `required` of them are required arcs, whose numbers are kept too. Contracts see three lists.
#[derive(Drop)]
pub struct LaidLegs {
    numbers: [u16; 256],
    tails: [u8; 526],
    heads: [u8; 526],
    required: usize,
    count: usize,
}

impl Model for LaidLegs {
    ghost Value = { LegLists };

    ghost view = { λ s. record { numbers = take s.required s.numbers; tails = take s.count s.tails; heads = take s.count s.heads } };

    ghost invariant = { λ s. (length s.numbers ≡ 256) × (length s.tails ≡ 526) × (length s.heads ≡ 526)
        × (s.required ≤ 256) × (s.count ≤ 526) };
}

impl LaidLegs {
    // No legs.
    fn none() -> Self
        ensures { result ≡ no_legs }
    {
        LaidLegs {
            numbers: [0; 256],
            tails: [0; 526],
            heads: [0; 526],
            required: 0,
            count: 0,
        }
    }

    // The numbers of the required arcs.
    pub fn numbers(&self) -> &[u16]
        ensures { result.now ≡ self.now.numbers }
    {
        &self.numbers[..self.required]
    }

    // The tails of all legs.
    pub fn tails(&self) -> &[u8]
        ensures { result.now ≡ self.now.tails }
    {
        &self.tails[..self.count]
    }

    // The heads of all legs.
    pub fn heads(&self) -> &[u8]
        ensures { result.now ≡ self.now.heads }
    {
        &self.heads[..self.count]
    }

    // A number of legs from tail to head.
    fn add(&mut self, tail: u8, head: u8, times: usize)
        requires { length self.old.tails + times ≤ 526 }
        ensures { Added (replicate times (record { tail = tail; head = head })) self.old self.new }
    {
        let end = self.count + times;
        self.tails[self.count..end].fill(tail);
        self.heads[self.count..end].fill(head);
        self.count += times;
    }

    // Required arc k.
    fn add_arc(&mut self, k: u16, a: Arc)
        requires { (length self.old.numbers < 256) × (length self.old.tails < 526) }
        ensures { AddedArc k (arc_value a) self.old self.new }
    {
        self.numbers[self.required] = k;
        self.required += 1;
        self.add(a.tail, a.head, 1);
    }

    // A leg for each link.
    fn add_links(&mut self, tails: &[u8], heads: &[u8])
        requires { (length heads.now ≡ length tails.now) × (length self.old.tails + length tails.now ≤ 526) }
        ensures { Added (links_of tails.now heads.now) self.old self.new }
    {
        let end = self.count + tails.len();
        self.tails[self.count..end].copy_from_slice(tails);
        self.heads[self.count..end].copy_from_slice(heads);
        self.count += tails.len();
    }

    // A leg for each unit of the amounts.
    fn add_units(&mut self, amounts: &[u16; 4096])
        requires { length self.old.tails + length (units amounts.now) ≤ 526 }
        ensures { Added (units amounts.now) self.old self.new }
    {
        for (x, amount) in amounts.iter().enumerate() {
            self.add((x / 64) as u8, (x % 64) as u8, usize::from(*amount));
        }
    }
}

// The required arcs, in file order.
pub fn gather(good: &GoodPlan) -> LaidLegs
    ensures { Noted (good_plan good.now) (required_numbers (good_plan good.now)) result }
{
    let mut legs = LaidLegs::none();
    let m = usize::from(good.plan.m);
    for (k, a) in good.plan.arcs[..m].iter().enumerate() {
        if plan::is_required(*a) {
            legs.add_arc(k as u16, *a);
        }
    }
    legs
}

// All legs: the required arcs, the links, the units of the amounts.
pub fn lay(good: &GoodPlan, link_tails: &[u8], link_heads: &[u8], amounts: &[u16; 4096]) -> LaidLegs
    requires { (length link_heads.now ≡ length link_tails.now)
        × (length (required_numbers (good_plan good.now)) + length link_tails.now + length (units amounts.now) ≤ 526) }
    ensures { Laid (good_plan good.now) (links_of link_tails.now link_heads.now) amounts.now result }
{
    let mut legs = gather(good);
    legs.add_links(link_tails, link_heads);
    legs.add_units(amounts);
    legs
}
