// Output in blocks: bytes wait in a buffer, which is written when it is full. Each function answers how many bytes wait then.
// Steps for other crates, which ask something of their caller.
ghost use Rattle.std.specs.Prelude.{◌<◌};

use crate::message::say;
use itoa::Buffer;

// Writes a block, and says so where that fails.
fn write(rt: &HostRuntime, block: &[u8]) {
    if rt.write_all(block).is_err() {
        say(rt, b"writing failed");
    }
}

// One byte more.
fn put_byte(rt: &HostRuntime, space: &mut [u8; 4096], waiting: usize, byte: u8) -> usize
    requires { waiting < 4096 }
    ensures { result < 4096 }
{
    space[waiting] = byte;
    if waiting == 4095 {
        write(rt, space);
        0
    } else {
        waiting + 1
    }
}

// A text.
pub fn put(rt: &HostRuntime, space: &mut [u8; 4096], waiting: usize, text: &[u8]) -> usize
    requires { waiting < 4096 }
    ensures { result < 4096 }
{
    let mut n = waiting;
    for byte in text {
        n = put_byte(rt, space, n, *byte);
    }
    n
}

// A label, a number and the line's end.
pub fn put_line(
    rt: &HostRuntime,
    space: &mut [u8; 4096],
    waiting: usize,
    label: &[u8],
    number: u64,
) -> usize
    requires { waiting < 4096 }
    ensures { result < 4096 }
{
    let mut digits = Buffer::new();
    let after_label = put(rt, space, waiting, label);
    let after_number = put(rt, space, after_label, digits.format(number).as_bytes());
    put(rt, space, after_number, b"\n")
}

// Writes what still waits.
pub fn flush(rt: &HostRuntime, space: [u8; 4096], waiting: usize)
    requires { waiting < 4096 }
{
    write(rt, &space[..waiting]);
}
