// The lines that the program prints, without their line feeds.
ghost use Rattle.text.specs.Text.{Room, Written};
ghost use Rattle.text.specs.Lines.{accepted_line, weights_text, row_line, refused_line};

use crate::text::{counted, numbered};
use rows::proof_sheet::Triple;

// The line of an acceptance.
#[tactic(auto, unfolding(crate::specs::Lines::accepted_line, crate::specs::Lines::scale_text))]
pub fn accepted_line(k: u64, scale: u64, floor: i64, out: &mut [u8], at: usize) -> usize
    requires { Room out.old at (accepted_line k scale floor) }
    ensures { Written out.old at (accepted_line k scale floor) out.new result }
{
    let a = counted(b"accepted rows ", k, out, at);
    let b = counted(b" scale ", scale, out, a);
    numbered(b" floor ", floor, out, b)
}

// A row's three weights.
#[tactic(auto, unfolding(crate::specs::Lines::weights_text, crate::specs::Lines::later_text))]
pub fn weights_text(x: Triple, out: &mut [u8], at: usize) -> usize
    requires { Room out.old at (weights_text x) }
    ensures { Written out.old at (weights_text x) out.new result }
{
    let a = numbered(b" p ", x.p, out, at);
    let b = numbered(b" q ", x.q, out, a);
    numbered(b" r ", x.r, out, b)
}

// The line of a row.
#[tactic(auto, unfolding(crate::specs::Lines::row_line))]
pub fn row_line(i: u64, x: Triple, out: &mut [u8], at: usize) -> usize
    requires { Room out.old at (row_line i x) }
    ensures { Written out.old at (row_line i x) out.new result }
{
    let a = counted(b"row ", i, out, at);
    weights_text(x, out, a)
}

// The line of a refusal.
#[tactic(auto, unfolding(crate::specs::Lines::refused_line))]
pub fn refused_line(number: u64, index: u64, out: &mut [u8], at: usize) -> usize
    requires { Room out.old at (refused_line number index) }
    ensures { Written out.old at (refused_line number index) out.new result }
{
    let a = counted(b"refused ", number, out, at);
    counted(b" at ", index, out, a)
}
