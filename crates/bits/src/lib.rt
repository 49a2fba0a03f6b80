// Bit fields in bytes, the most significant bit first.
// Steps for other crates, which ask something of their caller.
#![tactic(auto)]

ghost use Rattle.std.specs.Prelude.{◌≡◌, ◌+◌, ◌*◌, ◌^◌, ◌<◌, ◌≤◌, length};
ghost use Rattle.postman.specs.BitField.{bit_at, field_at};
ghost use Rattle.bits.specs.FieldUpdate.{with_bit, set_bit, put_field};

pub mod reader; // a file's slice with a bit position

// Bit n of the slice.
fn bit(s: &[u8], n: usize) -> u32
    requires { n < 8 * length s.now }
    ensures { result ≡ bit_at s.now n }
{
    let x = s[n / 8] as u32;
    (x >> (7 - n % 8)) % 2
}

// The field of `width` bits from bit `at` on. A plan file has fewer than 12,000 bits.
pub(crate) fn field(s: &[u8], at: usize, width: usize) -> u32
    requires { (width ≤ 16) × (at + width ≤ 8 * length s.now) × (at ≤ 12000) }
    ensures { result ≡ field_at s.now at width }
{
    let mut r: u32 = 0;
    for i in 0..width {
        r = r * 2 + bit(s, at + i);
    }
    r
}

// Two to the power k.
fn power(k: usize) -> u32
    requires { k < 8 }
    ensures { result ≡ 2 ^ k }
{
    1u32 << k
}

// The byte x with b at the place of 2 ^ k.
fn with_bit(x: u8, k: usize, b: u32) -> u8
    requires { (k < 8) × (b < 2) }
    ensures { result ≡ with_bit x k b }
{
    let p = power(k);
    let w = x as u32;
    ((w / (p * 2) * 2 + b) * p + w % p) as u8
}

// Bit n becomes b, and every other bit stays.
fn put_bit(s: &mut [u8], n: usize, b: u32)
    requires { (n < 8 * length s.old) × (b < 2) }
    ensures { s.new ≡ set_bit s.old n b }
{
    let q = n / 8;
    let x = s[q];
    s[q] = with_bit(x, 7 - n % 8, b);
}

// The bits from `at` on become the `width` bits of v, and every other bit stays.
pub fn put_field(s: &mut [u8], at: usize, width: usize, v: u32)
    requires { (width ≤ 16) × (at + width ≤ 8 * length s.old) × (at ≤ 12000) }
    ensures { s.new ≡ put_field s.old at width v }
{
    for i in 0..width {
        let b = (v >> (width - 1 - i)) % 2;
        put_bit(s, at + i, b);
    }
}
