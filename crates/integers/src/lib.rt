// Signed numbers from unsigned ones, and back. The rule sets of `specs/` prove facts about them.
// Steps for other crates, which ask something of their caller.
#![tactic(auto)]

ghost use Rattle.std.specs.Prelude.{◌≡◌, ◌≤◌, pos, nat_abs, ◌-ℤ◌};

// a less b.
pub fn difference(a: u64, b: u64) -> i64
    requires { (a ≤ 4611686018427387904) × (b ≤ 4611686018427387904) }
    ensures { result ≡ pos a -ℤ pos b }
{
    a as i64 - b as i64
}

// a without its sign.
pub fn magnitude(a: i64) -> u64
    ensures { result ≡ nat_abs a }
{
    if a < 0 {
        return (0 - (a + 1)) as u64 + 1;
    }
    a as u64
}
