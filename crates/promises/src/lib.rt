// What callers in other languages can rely on: theorems over the contracts of `exports` and of the calls below it. A
// crate needs a function: this one answers zero.
#![tactic(auto)]

ghost use Rattle.std.specs.Prelude.{◌≡◌};

pub fn zero() -> u8
    ensures { result ≡ 0 }
{
    0
}
