// A window of a list, and a departure.
ghost use Rattle.std.specs.Prelude.{◌≡◌, ◌+◌, ◌*◌, ◌≤◌, length};
ghost use Rattle.postman.specs.Windows.{window_in};
ghost use Rattle.shut_arcs.specs.Fields.{window_value};

#[derive(Clone, Copy)]
pub struct Window {
    pub arc: u16,
    pub weekday: u16,
    pub from: u16,
    pub to: u16,
}

#[derive(Clone, Copy)]
pub struct Departure {
    pub weekday: u32,
    pub minute: u32,
}

impl Window {
    // Window k of a list: four of its numbers.
    pub(crate) fn at(numbers: &[u16], k: usize) -> Window
        requires { 4 * k + 4 ≤ length numbers.now }
        ensures { window_value result ≡ window_in numbers.now k }
    {
        Window {
            arc: numbers[4 * k],
            weekday: numbers[4 * k + 1],
            from: numbers[4 * k + 2],
            to: numbers[4 * k + 3],
        }
    }
}
