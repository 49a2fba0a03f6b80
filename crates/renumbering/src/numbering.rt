// Numberings by value.
// Steps for other crates, which ask something of their caller.
ghost use Rattle.std.specs.Prelude.{◌≡◌, ◌<◌};
ghost use Rattle.renumbering.specs.Numbering.{IsNumberingOf, unchanged, exchanged};

// The new number of each vertex, and the vertex of each new number.
#[derive(Clone, Copy)]
pub struct Numbering {
    pub to: [u8; 64],
    pub from: [u8; 64],
}

// Every vertex keeps its number.
pub fn identity() -> Numbering
    ensures { result ≡ unchanged }
{
    let to = std::array::from_fn(|v| v as u8);
    Numbering { to, from: to }
}

// The vertices of the new numbers i and j exchange these.
pub fn exchange(mut x: Numbering, i: usize, j: usize) -> Numbering
    requires { IsNumberingOf 64 x × (i < 64) × (j < 64) }
    ensures { result ≡ exchanged i j x }
{
    let (v, w) = (x.from[i], x.from[j]);
    x.from[i] = w;
    x.from[j] = v;
    x.to[usize::from(v)] = j as u8;
    x.to[usize::from(w)] = i as u8;
    x
}
