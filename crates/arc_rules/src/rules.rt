// What is refused of an arc by its record.
ghost use Rattle.std.specs.Prelude.{◌≡◌, cond, not, ◌||◌, leb, eqb};
ghost use Rattle.std.proofs.Math.Option.{none, some};
ghost use Rattle.postman.specs.Refusal.{first_refusal};
ghost use Rattle.postman.specs.PlanFile.{arc_conditions, is_outside};
ghost use Rattle.refusal.specs.Verdict.{verdict_number};
ghost use Rattle.plan.specs.Standings.{is_refused_standing, is_must_standing};
ghost use Rattle.plan.specs.Records.{arc_value};
ghost use Rattle.arc_rules.specs.Fields.{mispriced, field_conditions};

use plan::{Arc, Standing};
use refusal::{Refusal, Verdict};

// Whether x is below `low` or above `high`.
pub fn is_outside(x: u32, low: u32, high: u32) -> bool
    ensures { result ≡ is_outside x low high }
{
    x < low || high < x
}

// 5 off sheet: "tail or head is n or more"
fn ends_verdict(n: u32, tail: u32, head: u32) -> Verdict
    ensures { verdict_number result ≡ cond (leb n tail || leb n head) (some 5) none }
{
    if n <= tail || n <= head {
        return Err(Refusal::OffSheet);
    }
    Ok(())
}

// Whether an arc of that standing must be driven.
pub fn is_must(standing: Standing) -> bool
    ensures { result ≡ is_must_standing standing }
{
    standing == Standing::Must
}

// "In edition 1 a must arc's checking cost is its cost, any other arc's is 0."
pub fn implied_service(must: bool, cost: u32) -> u32
    ensures { result ≡ cond must cost 0 }
{
    if must { cost } else { 0 }
}

// Whether the checking cost is 0 in a must arc, or not 0 in another.
fn is_unfit(must: bool, service: u32) -> bool
    ensures { result ≡ cond must (eqb service 0) (not (eqb service 0)) }
{
    if must { service == 0 } else { service != 0 }
}

// Whether the checking cost is wrong: unfit, or in edition 1 another than the implied one.
fn is_mispriced(edition: u8, must: bool, cost: u32, service: u32) -> bool
    ensures { result ≡ mispriced edition must cost service }
{
    is_unfit(must, service) || edition != 2 && service != implied_service(must, cost)
}

// 6 unpriced: a wrong checking cost. A plain cost of 0 is good.
fn price_verdict(edition: u8, must: bool, cost: u32, service: u32) -> Verdict
    ensures { verdict_number result ≡ cond (mispriced edition must cost service) (some 6) none }
{
    if is_mispriced(edition, must, cost, service) {
        return Err(Refusal::Unpriced);
    }
    Ok(())
}

// 7 standing: "standing above 2"
fn standing_verdict(standing: Standing) -> Verdict
    ensures { verdict_number result ≡ cond (is_refused_standing standing) (some 7) none }
{
    if standing == Standing::Refused {
        return Err(Refusal::Standing);
    }
    Ok(())
}

// The fields of an arc.
#[derive(Clone, Copy, Debug, PartialEq, Eq)]
pub struct Fields {
    pub tail: u32,
    pub head: u32,
    pub standing: u32,
    pub cost: u32,
    pub service: u32,
}

// The first refusal of an arc: "5, 6, 7".
fn arc_verdict(edition: u8, n: u32, f: Fields, standing: Standing) -> Verdict
    ensures { verdict_number result ≡ first_refusal (field_conditions edition n f standing) }
{
    ends_verdict(n, f.tail, f.head)?;
    price_verdict(edition, is_must(standing), f.cost, f.service)?;
    standing_verdict(standing)
}

// The first refusal of a record.
pub fn record_verdict(edition: u8, n: u8, a: Arc) -> Verdict
    ensures { verdict_number result ≡ first_refusal (arc_conditions edition n (arc_value a)) }
{
    let standing = plan::record_standing(a);
    let f = Fields {
        tail: a.tail as u32,
        head: a.head as u32,
        standing: a.standing as u32,
        cost: a.cost as u32,
        service: a.service as u32,
    };
    arc_verdict(edition, n as u32, f, standing)
}
