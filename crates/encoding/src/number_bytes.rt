// Numbers of two, four and eight bytes in a lent slice, the high byte first, and bytes that are put into one.
// Steps for other crates, which ask something of their caller.
ghost use Rattle.std.specs.Prelude.{◌≡◌, ◌+◌, ◌≤◌, length, take, drop};
ghost use Rattle.encoding.specs.NumberBytes.{put_at, number_bytes, word_in, word_bytes, long_in, long_bytes};

pub fn word_at(lent: &[u8], at: usize) -> u32
    requires { at + 4 ≤ length lent.now }
    ensures { result ≡ word_in lent.now at }
{
    u32::from_be_bytes([lent[at], lent[at + 1], lent[at + 2], lent[at + 3]])
}

pub fn long_at(lent: &[u8], at: usize) -> u64
    requires { at + 8 ≤ length lent.now }
    ensures { result ≡ long_in lent.now at }
{
    u64::from_be_bytes(eight_at(lent, at))
}

// Eight bytes.
pub fn eight_at(lent: &[u8], at: usize) -> [u8; 8]
    requires { at + 8 ≤ length lent.now }
    ensures { result ≡ take 8 (drop at lent.now) }
{
    let mut bytes = [0; 8];
    bytes.copy_from_slice(&lent[at..at + 8]);
    bytes
}

pub fn put_number(lent: &mut [u8], at: usize, k: u16)
    requires { at + 2 ≤ length lent.old }
    ensures { lent.new ≡ put_at lent.old at (number_bytes k) }
{
    put_bytes(lent, at, &u16::to_be_bytes(k));
}

pub fn put_word(lent: &mut [u8], at: usize, k: u32)
    requires { at + 4 ≤ length lent.old }
    ensures { lent.new ≡ put_at lent.old at (word_bytes k) }
{
    put_bytes(lent, at, &u32::to_be_bytes(k));
}

pub fn put_long(lent: &mut [u8], at: usize, k: u64)
    requires { at + 8 ≤ length lent.old }
    ensures { lent.new ≡ put_at lent.old at (long_bytes k) }
{
    put_bytes(lent, at, &u64::to_be_bytes(k));
}

#[tactic(auto, unfolding(crate::specs::NumberBytes::put_at))]
pub fn put_bytes(lent: &mut [u8], at: usize, from: &[u8])
    requires { at + length from.now ≤ length lent.old }
    ensures { lent.new ≡ put_at lent.old at from.now }
{
    lent[at..at + from.len()].copy_from_slice(from);
}
