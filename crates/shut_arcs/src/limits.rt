// 19: the limits of a window, of the list and of a departure.
ghost use Rattle.std.specs.Prelude.{◌≡◌};
ghost use Rattle.postman.specs.Lists.{any_of};
ghost use Rattle.postman.specs.Windows.{windows_in, is_bad_window, has_bad_window};
ghost use Rattle.shut_arcs.specs.Fields.{window_value, departure};

use crate::window::Window;

// Whether a window is beyond a limit, where there are m arcs.
#[tactic(auto, using(crate::specs::Laws::Limits::of_window))]
fn is_bad_window(m: usize, w: Window) -> bool
    ensures { result ≡ is_bad_window m (window_value w) }
{
    m <= usize::from(w.arc) || 6 < w.weekday || w.to <= w.from || 1_440 < w.to
}

// Whether one of the windows is, of whatever weekday.
#[tactic(auto, using(crate::specs::Laws::Limits::window_found, crate::specs::Laws::Limits::none_found))]
fn any_bad_window(m: usize, windows: &[u16]) -> bool
    ensures { result ≡ any_of (is_bad_window m) (windows_in windows.now) }
{
    (0..windows.len() / 4).any(|k| is_bad_window(m, Window::at(windows, k)))
}

// 19 bad window: "a field, the list length or the departure breaks these limits".
#[tactic(auto, using(crate::specs::Laws::Limits::of_call))]
pub fn has_bad_window(m: usize, windows: &[u16], weekday: u32, minute: u32) -> bool
    ensures { result ≡ has_bad_window m windows.now (departure weekday minute) }
{
    6 < weekday
        || 1_439 < minute
        || windows.len() % 4 != 0
        || 128 < windows.len() / 4
        || any_bad_window(m, windows)
}
