// The fields of an arc in a file.
// Steps for other crates, which ask something of their caller.
ghost use Rattle.std.specs.Prelude.{◌≡◌, cond, ◌+◌, ◌*◌, ◌<◌, ◌≤◌, length};
ghost use Rattle.postman.specs.BitField.{field_at};
ghost use Rattle.postman.specs.PlanFile.{is_second, arc_width, file_bits, arc_of};
ghost use Rattle.arc_rules.specs.Fields.{fields_arc};

use arc_rules::rules::{Fields, implied_service, is_must};
use bits::reader::take_at;
use plan::Standing;

// The bits of a file of m arcs, which are those before arc m of a longer one.
pub fn file_bits(edition: u8, m: usize) -> usize
    requires { m ≤ 256 }
    ensures { result ≡ file_bits edition m }
{
    if edition == 2 {
        20 + 46 * m
    } else {
        20 + 30 * m
    }
}

// The checking cost of the arc whose fields begin at bit `at`: read in edition 2, implied in edition 1.
fn read_service(s: &[u8], edition: u8, at: usize, must: bool, cost: u32) -> u32
    requires { (at ≤ 11800) × (at + arc_width edition ≤ 8 * length s.now) }
    ensures { result ≡ cond (is_second edition) (field_at s.now (at + 30) 16) (cond must cost 0) }
{
    if edition == 2 {
        take_at(s, at + 30, 16).field
    } else {
        implied_service(must, cost)
    }
}

// The fields of arc k of the file.
pub fn arc_fields(s: &[u8], edition: u8, k: usize) -> Fields
    requires { (k < 256) × (file_bits edition k + arc_width edition ≤ 8 * length s.now) }
    ensures { fields_arc result ≡ arc_of s.now edition k }
{
    let at = file_bits(edition, k);
    let tail = take_at(s, at, 6);
    let head = take_at(s, tail.at, 6);
    let standing = take_at(s, head.at, 2);
    let cost = take_at(s, standing.at, 16);
    let must = is_must(Standing::from(standing.field));
    Fields {
        tail: tail.field,
        head: head.field,
        standing: standing.field,
        cost: cost.field,
        service: read_service(s, edition, at, must, cost.field),
    }
}
