// The number that reading and writing a plan file answer, and numbers that are taken for n and the edition.
// Steps for other crates, which ask something of their caller.
ghost use Rattle.std.specs.Prelude.{◌≡◌, ℕ, ◌≤◌};
ghost use Rattle.postman.specs.Refusal.{given};
ghost use Rattle.plan_writer.specs.Writing.{written_answer};
ghost use Rattle.records.specs.Reading.{read_numbers};
ghost use Rattle.record_writer.specs.Writing.{at_most};
ghost use Rattle.answers.specs.Number.{one_number};
ghost use Rattle.answers.specs.FileNumber.{packed};

use crate::number::refused_number;
use plan_writer::Written;
use records::reader::Read;

// What reading answers, as one number.
pub fn read_number(r: Read) -> i64
    ensures { result ≡ one_number (packed (read_numbers r)) }
{
    match r {
        Ok(h) => i64::from(h.edition) * 65_536 + i64::from(h.n) * 512 + i64::from(h.m),
        Err(q) => refused_number(q),
    }
}

// What writing answers, as one number. No file is longer than 1,475 bytes.
pub fn written_number(w: Written) -> i64
    requires { (k : ℕ) → written_answer w ≡ given k → k ≤ 1475 }
    ensures { result ≡ one_number (written_answer w) }
{
    match w {
        Ok(k) => k as i64,
        Err(q) => refused_number(q),
    }
}

// n as a byte. n above 64 is refused whatever it is, so 65 stands for it.
pub fn vertices_of(n: u32) -> u8
    ensures { result ≡ at_most n 65 }
{
    if n < 65 {
        return n as u8;
    }
    65
}

// The edition as a byte. Any above 2 is refused, so 3 stands for it.
pub fn edition_of(e: u32) -> u8
    ensures { result ≡ at_most e 3 }
{
    if e < 3 {
        return e as u8;
    }
    3
}
