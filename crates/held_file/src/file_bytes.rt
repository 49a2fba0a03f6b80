// The 1,475 bytes of a held file in a lent slice. Its length stands elsewhere, in as many bytes as those who lend the slice have for it.
// Steps for other crates, which ask something of their caller.
ghost use Rattle.std.specs.Prelude.{◌≡◌, ◌+◌, ◌≤◌, length};
ghost use Rattle.encoding.specs.NumberBytes.{put_at};
ghost use Rattle.held_file.specs.Held.{held_at};

use crate::Held;
use crate::file::hold;
use encoding::number_bytes::put_bytes;

// The file of length n whose bytes start at `at`.
pub fn load_file(lent: &[u8], at: usize, n: usize) -> Held
    requires { at + 1475 ≤ length lent.now }
    ensures { result ≡ held_at lent.now at n }
{
    let whole = hold(&lent[at..at + 1475]);
    Held { length: n, ..whole }
}

// The bytes from `at` on become those of a file.
pub fn store_file(lent: &mut [u8], at: usize, h: Held)
    requires { at + 1475 ≤ length lent.old }
    ensures { (length h.file ≡ 1475) × (lent.new ≡ put_at lent.old at h.file) }
{
    put_bytes(lent, at, &h.file);
}
