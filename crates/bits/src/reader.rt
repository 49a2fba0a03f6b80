// "A bit reader that holds the file's slice and a bit position."
ghost use Rattle.std.specs.Prelude.{◌≡◌};
ghost use Rattle.bits.specs.Taking.{can_take, taken_field, taken_at};

use crate::field;

#[derive(Clone, Copy)]
pub struct BitReader<'a> {
    pub file: &'a [u8],
    pub at: usize,
}

// A field, and the position after it.
#[derive(Clone, Copy)]
pub struct Taken {
    pub field: u32,
    pub at: usize,
}

// Whether there is such a field.
fn can_take(file: &[u8], at: usize, width: usize) -> bool
    ensures { result ≡ can_take file.now at width }
{
    if 16 < width {
        return false;
    }
    if 12_000 < at {
        return false;
    }
    (at + width + 7) / 8 <= file.len()
}

// The work: the field of `width` bits from bit `at` on, and the position after it; 0, and the
// position as it was, where there is no such field.
pub(crate) fn field_from(file: &[u8], at: usize, width: usize) -> Taken
    ensures { (result.field ≡ taken_field file.now at width) × (result.at ≡ taken_at file.now at width) }
{
    if can_take(file, at, width) {
        let value = field(file, at, width);
        return Taken {
            field: value,
            at: at + width,
        };
    }
    Taken { field: 0, at: at }
}

impl<'a> BitReader<'a> {
    pub fn new(file: &'a [u8], at: usize) -> BitReader<'a>
        ensures { (result.file ≡ file.entry) × (result.at ≡ at) }
    {
        BitReader { file: file, at: at }
    }

    // The field of `width` bits at the position, and the moved position.
    pub fn take(self, width: usize) -> Taken
        ensures { (result.field ≡ taken_field self.entry.file.now self.entry.at width)
            × (result.at ≡ taken_at self.entry.file.now self.entry.at width) }
    {
        field_from(self.file, self.at, width)
    }
}

// From a slice to a reader and back: its contract says nothing of a reader, so its callers need no walk by hand.
pub fn take_at(file: &[u8], at: usize, width: usize) -> Taken
    ensures { (result.field ≡ taken_field file.now at width) × (result.at ≡ taken_at file.now at width) }
{
    BitReader::new(file, at).take(width)
}
