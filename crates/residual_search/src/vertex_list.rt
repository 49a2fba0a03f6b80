// Vertices of a plan, in a list.
ghost use Rattle.std.specs.Prelude.{◌≤◌};
ghost use Rattle.residual_search.specs.Bounds.{AtMost};

// Vertices in a list; each is below 64.
#[derive(Clone, Copy)]
pub struct VertexList<'a> {
    pub vertices: &'a [u8],
    pub ghost below_64: { AtMost 63 vertices.now },
}
