// Which component each has become one with.
ghost use Rattle.std.specs.Prelude.{◌≡◌, map};
ghost use Rattle.small_counts.specs.Arrival.{renamed as new_name};

// The new name of what was `name`, where component a becomes one with x.
#[tactic(auto, unfolding(small_counts::specs::Arrival::renamed))]
fn new_name(a: usize, x: u8, name: u8) -> u8
    ensures { result ≡ new_name a x name }
{
    if usize::from(name) == a { x } else { name }
}

// Component a becomes one with x: what was one with a is one with x.
pub(crate) fn renamed(names: [u8; 8], a: usize, x: u8) -> [u8; 8]
    ensures { result ≡ map (new_name a x) names }
{
    names.map(|name| new_name(a, x, name))
}
