// The definitions of `specs/` are what this crate is for. A crate needs a function: this one answers zero.
#![tactic(auto)]

ghost use Rattle.std.specs.Prelude.{◌≡◌};

pub fn zero() -> u8
    ensures { result ≡ 0 }
{
    0
}
