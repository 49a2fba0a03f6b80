// A plan file by value, in a lent slice, and one of which an arc is changed. Steps for the calls of open plans and of districts.
#![tactic(auto)]

pub mod change; // one arc of a file changed
pub mod file; // a plan file by value
pub mod file_bytes; // its bytes in a lent slice

// A plan file of at most 1,475 bytes, by value: its length, and its bytes with zeros after them. Length 0 stands for no file.
#[derive(Clone, Copy)]
pub struct Held {
    pub length: usize,
    pub file: [u8; 1475],
}
