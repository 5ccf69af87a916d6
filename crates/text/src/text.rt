// Text put over a lent buffer from a place on. Each function answers the place after its text; no other byte changes.
ghost use Rattle.std.specs.Prelude.{[], ◌∷◌, ◌++◌, ◌<◌};
ghost use Rattle.text.specs.Text.{natural, counted, numbered, Room, Written};

use itoa::{Buffer, Integer};

// One byte.
pub fn put_byte(b: u8, out: &mut [u8], at: usize) -> usize
    requires { Room out.old at (b ∷ []) }
    ensures { Written out.old at (b ∷ []) out.new result }
{
    out[at] = b;
    at + 1
}

// A text as it stands.
#[inline]
pub fn put_text(text: &[u8], out: &mut [u8], at: usize) -> usize
    requires { Room out.old at text.now }
    ensures { Written out.old at text.now out.new result }
{
    let end = at + text.len();
    out[at..end].copy_from_slice(text);
    end
}

// A number in decimal. Not inline, so that what puts a label before it is.
#[inline(never)]
fn decimal<I: Integer>(n: I, out: &mut [u8], at: usize) -> usize
    requires { Room out.old at (I.text n) }
    ensures { Written out.old at (I.text n) out.new result }
{
    put_text(Buffer::new().format(n).as_bytes(), out, at)
}

// A label and a number in decimal.
#[inline]
fn labelled<I: Integer>(label: &[u8], n: I, out: &mut [u8], at: usize) -> usize
    requires { Room out.old at (label.now ++ I.text n) }
    ensures { Written out.old at (label.now ++ I.text n) out.new result }
{
    let from = put_text(label, out, at);
    decimal(n, out, from)
}

// A count of one digit or two, put as it is.
#[inline]
fn short(n: u64, out: &mut [u8], at: usize) -> usize
    requires { (n < 100) × Room out.old at (natural n) }
    ensures { Written out.old at (natural n) out.new result }
{
    if n < 10 {
        return put_byte((48 + n) as u8, out, at);
    }
    let ones = put_byte((48 + n / 10) as u8, out, at);
    put_byte((48 + n % 10) as u8, out, ones)
}

// A label and a count. Most are exponents, which need no buffer of digits.
#[tactic(auto, using(crate::proofs::text::Laws::counted_decimal, crate::proofs::text::Steps::short_room))]
#[inline]
pub fn counted(label: &[u8], n: u64, out: &mut [u8], at: usize) -> usize
    requires { Room out.old at (counted label.now n) }
    ensures { Written out.old at (counted label.now n) out.new result }
{
    if n < 100 {
        let from = put_text(label, out, at);
        return short(n, out, from);
    }
    labelled(label, n, out, at)
}

// A label and a number of either sign.
#[tactic(auto, using(crate::proofs::text::Laws::numbered_decimal))]
#[inline]
pub fn numbered(label: &[u8], z: i64, out: &mut [u8], at: usize) -> usize
    requires { Room out.old at (numbered label.now z) }
    ensures { Written out.old at (numbered label.now z) out.new result }
{
    labelled(label, z, out, at)
}
