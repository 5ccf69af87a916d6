// Weights written back into a proof sheet.
ghost use Rattle.std.specs.Prelude.{◌≡◌, ◌+◌, ◌<◌, ◌≤◌, length};
ghost use Rattle.sheets.specs.Layout.{ProofRoom};
ghost use Rattle.rows.specs.ProofSheet.{triple_for, Narrow};
ghost use Rattle.writing.specs.Writing.{with_triple, with_weights};

use integers::words::write_i32;
use rows::proof_sheet::{Triple, triple_place};
use sheets::layout::Shape;
use squares::rows::Weights;

// Three numbers from a place on. Their twelve bytes change, and no other.
fn write_triple(out: &mut [u8], at: usize, x: Triple)
    requires { (at + 12 ≤ length out.old) × (Narrow x) }
    ensures { out.new ≡ with_triple out.old at x }
{
    write_i32(out, at, x.p);
    write_i32(out, at + 4, x.q);
    write_i32(out, at + 8, x.r);
}

// Row i's weights, in bytes that have room for the proof: q and r of a lone row become zero.
pub fn write_weights(out: &mut [u8], shape: Shape, i: usize, weights: Weights)
    requires { (ProofRoom out.old shape) × (i < shape.k) × (Narrow (triple_for weights)) }
    ensures { out.new ≡ with_weights out.old shape i weights }
{
    write_triple(out, triple_place(shape, i), Triple::from(weights));
}
