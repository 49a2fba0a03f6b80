// What the trees are searched in.
ghost use Rattle.std.specs.Prelude.{◌≡◌};

use candidates::Candidates;

// The distances, the required vertices, the candidates in arrays, and how many components there are.
#[derive(Clone, Copy)]
pub struct Field<'a> {
    pub d: &'a [[u32; 64]; 64],
    pub vs: &'a [u8],
    pub candidates: &'a Candidates,
    pub k: usize,
}
