// Exponents put over a buffer, one after another.
ghost use Rattle.std.specs.Prelude.{◌+◌, ◌≤◌, length};
ghost use Rattle.points.specs.Points.{bytes_at};
ghost use Rattle.text.specs.Text.{Room, Written};
ghost use Rattle.listings.specs.Fields.{exponent_fields, fields_text};

use text::text::{counted, put_text};

// The exponents of a point of some variables, the n bytes of a sheet from a place on: the first behind a label, and
// each behind a space.
pub fn exponents_text(
    label: &[u8],
    sheet: &[u8],
    at: usize,
    n: usize,
    out: &mut [u8],
    from: usize,
) -> usize
    requires { (1 ≤ n) × (at + n ≤ length sheet.now)
        × (Room out.old from (fields_text (exponent_fields label.now (bytes_at sheet.now at n)))) }
    ensures { Written out.old from
        (fields_text (exponent_fields label.now (bytes_at sheet.now at n))) out.new result }
{
    let mut end = put_text(label, out, from);
    for i in 0..n {
        end = counted(b" ", u64::from(sheet[at + i]), out, end);
    }
    end
}
