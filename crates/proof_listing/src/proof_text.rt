// The text of a proof: its variables and scale, and a line for each row.
ghost use Rattle.std.specs.Prelude.{◌≡◌, ◌<◌, ◌≤◌, length};
ghost use Rattle.answers.specs.Answers.{says, Passes};
ghost use Rattle.points.specs.Points.{same_point};
ghost use Rattle.sheets.specs.Layout.{ProofRoom};
ghost use Rattle.rows.specs.ProofSheet.{v_of, w_of};
ghost use Rattle.text.specs.Text.{Room, Written};
ghost use Rattle.listings.specs.Fields.{fields_text, listing};
ghost use Rattle.listings.specs.Listings.{listing_answer, listing_after, ListingPromises};
ghost use Rattle.proof_listing.specs.OwnChecks.{own_answer};
ghost use Rattle.proof_listing.specs.ProofText.{longest, head_fields, pair_fields, lone_fields, row_fields, proof_fields, FormedProof};

use crate::own_checks::check_own;
use answers::answers::Verdict;
use bounds::bounds::MOST_ROWS;
use listings::exponents::exponents_text;
use listings::handing::listed;
use points::points::same;
use rows::proof_sheet::{row_place, row_triple, row_v, row_w, scale, shape_of};
use sheets::layout::{Shape, variables};
use text::lines::weights_text;
use text::text::{counted, numbered, put_byte};

// The longest text: 32 bytes, and 123 for each row.
const LONGEST: usize = 32 + 123 * MOST_ROWS;

// The variables and the scale.
fn head_text(proof: &[u8], out: &mut [u8], from: usize) -> usize
    requires { (8 ≤ length proof.now) × (Room out.old from (fields_text (head_fields proof.now))) }
    ensures { Written out.old from (fields_text (head_fields proof.now)) out.new
        result }
{
    let n = counted(b"proof\nvariables ", variables(proof) as u64, out, from);
    counted(b"\nscale ", scale(proof), out, n)
}

// A pair: its points and its three weights.
fn pair_text(proof: &[u8], shape: Shape, i: usize, out: &mut [u8], from: usize) -> usize
    requires { (ProofRoom proof.now shape) × (1 ≤ shape.n) × (i < shape.k)
        × (Room out.old from (fields_text (pair_fields proof.now shape i))) }
    ensures { Written out.old from (fields_text (pair_fields proof.now shape i))
        out.new result }
{
    let at = row_place(shape, i);
    let v = exponents_text(b" pair v", proof, at, shape.n, out, from);
    let w = exponents_text(b" w", proof, at + shape.n, shape.n, out, v);
    weights_text(row_triple(proof, shape, i), out, w)
}

// A lone row: its point and its weight.
fn lone_text(proof: &[u8], shape: Shape, i: usize, out: &mut [u8], from: usize) -> usize
    requires { (ProofRoom proof.now shape) × (1 ≤ shape.n) × (i < shape.k)
        × (Room out.old from (fields_text (lone_fields proof.now shape i))) }
    ensures { Written out.old from (fields_text (lone_fields proof.now shape i))
        out.new result }
{
    let at = row_place(shape, i);
    let v = exponents_text(b" lone v", proof, at, shape.n, out, from);
    let x = row_triple(proof, shape, i);
    numbered(b" p ", x.p, out, v)
}

// Whether row i is lone.
fn is_lone(proof: &[u8], shape: Shape, i: usize) -> bool
    requires { (ProofRoom proof.now shape) × (i < shape.k) }
    ensures { result ≡ same_point (v_of proof.now shape i) (w_of proof.now shape i) }
{
    same(row_v(proof, shape, i), row_w(proof, shape, i))
}

// The line of row i: a lone row or a pair.
fn row_text(proof: &[u8], shape: Shape, i: usize, out: &mut [u8], from: usize) -> usize
    requires { (ProofRoom proof.now shape) × (1 ≤ shape.n) × (i < shape.k)
        × (Room out.old from (fields_text (row_fields proof.now shape i))) }
    ensures { Written out.old from (fields_text (row_fields proof.now shape i))
        out.new result }
{
    let index = counted(b"\nrow ", i as u64, out, from);
    if is_lone(proof, shape, i) {
        return lone_text(proof, shape, i, out, index);
    }
    pair_text(proof, shape, i, out, index)
}

// The whole text of a proof that passes its own checks; the answer is where it ends.
fn whole_text(proof: &[u8], out: &mut [u8]) -> usize
    requires { (Passes (own_answer proof.now)) × (length out.old ≡ longest) }
    ensures { Written out.old 0 (listing (proof_fields proof.now)) out.new result }
{
    let shape = shape_of(proof);
    let mut end = head_text(proof, out, 0);
    for i in 0..shape.k {
        end = row_text(proof, shape, i, out, end);
    }
    put_byte(b'\n', out, end)
}

// The text of a proof at the start of a buffer, and its length; what does not pass 8 to 10 and 12 to 15 is refused by
// these, and a buffer that is shorter than the text by 30.
pub fn proof_text(proof: &[u8], buffer: &mut [u8]) -> Verdict
    ensures verdict { says result ≡ listing_answer (own_answer proof.now) (proof_fields proof.now)
        (length buffer.old) }
    ensures written { buffer.new ≡ listing_after (own_answer proof.now)
        (proof_fields proof.now) buffer.old }
    ensures promises { ListingPromises FormedProof proof_fields proof.now buffer.old
        (Passes (says result)) (says result).value buffer.new }
{
    let checked = check_own(proof);
    listed::<LONGEST, _>(checked, |text: &mut [u8]| whole_text(proof, text), buffer).into()
}
