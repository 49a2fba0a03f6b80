// Whether each required vertex has a path to each other one.
ghost use Rattle.std.specs.Prelude.{◌≡◌, ◌<◌};
ghost use Rattle.network.specs.CutOff.{misses_some, cuts_off};

// Whether some required vertex has no path from i.
fn misses(d: &[[u32; 64]; 64], required: [bool; 64], i: usize) -> bool
    requires { i < 64 }
    ensures { result ≡ misses_some d.now required i }
{
    (0..64).any(|j| required[j] && d[i][j] == u32::MAX)
}

// Whether "some required vertex has no path to another".
pub(crate) fn is_cut_off(d: &[[u32; 64]; 64], required: [bool; 64]) -> bool
    ensures { result ≡ cuts_off d.now required }
{
    (0..64).any(|i| required[i] && misses(d, required, i))
}
