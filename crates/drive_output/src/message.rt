// What is said on standard error: a line each. Where standard error takes no line, nothing more can be said.

// A line, with the program's name before it.
pub fn say(rt: &HostRuntime, line: &[u8]) {
    let error = rt.stderr();
    let _ = error.write_all(b"drive: ");
    let _ = error.write_all(line);
    let _ = error.write_all(b"\n");
}

// The trade word of a refusal of the plan call. The sheet and the budget are the program's own, and good.
pub fn say_word(rt: &HostRuntime, number: u8) {
    match number {
        1 => say(rt, b"torn"),
        2 => say(rt, b"edition"),
        3 => say(rt, b"extent"),
        4 => say(rt, b"margin"),
        5 => say(rt, b"off sheet"),
        6 => say(rt, b"unpriced"),
        0 | 7 => say(rt, b"standing"),
        10 => say(rt, b"idle"),
        11 => say(rt, b"scattered"),
        12 => say(rt, b"cut off"),
        _ => say(rt, b"repeated"),
    }
}
