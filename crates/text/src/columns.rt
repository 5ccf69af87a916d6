// Numbers in columns: right-aligned, put over a buffer that has spaces there.
ghost use Rattle.std.specs.Prelude.{◌≤◌, length};
ghost use Rattle.text.specs.Text.{integer, Written};
ghost use Rattle.text.specs.Columns.{column, Blank};

use crate::text::put_text;
use itoa::Buffer;

// A number at the right of a column that is wide enough for it.
pub fn column(z: i64, width: usize, out: &mut [u8], at: usize) -> usize
    requires { (length (integer z) ≤ width) × (Blank out.old at width) }
    ensures { Written out.old at (column width z) out.new result }
{
    let mut buffer = Buffer::new();
    let text = buffer.format(z).as_bytes();
    let before = width - text.len();
    put_text(text, out, at + before)
}
