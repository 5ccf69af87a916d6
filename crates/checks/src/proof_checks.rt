// Checks of the proof: refusals 8 to 10 of its header, and 12 to 15 of its rows.
ghost use Rattle.std.specs.Prelude.{◌≡◌, not, ◌<◌, ◌≤◌, length};
ghost use Rattle.bounds.specs.Profiles.{InRange};
ghost use Rattle.answers.specs.Answers.{told};
ghost use Rattle.sheets.specs.Layout.{ProofRoom};
ghost use Rattle.checks.specs.ProofChecks.{proof_header_right, header_answer, exponent_breaks, midpoint_breaks, q_or_r, unused_breaks, any_beyond, weight_breaks, rows_answer};

use answers::answers::Sheet;
use answers::searches::first_at;
use bounds::bounds::{GREATEST_SCALE, is_beyond};
use bounds::profiles::Profile;
use points::points::{exponents_within, has_midpoint, same};
use rows::proof_sheet::{
    Triple, proof_length, row_count, row_triple, row_v, row_w, scale, shape_of,
};
use sheets::layout::{Shape, variables};

// 9: whether n is not the claim's, or byte 1, k or S is wrong.
#[tactic(auto, unfolding(crate::specs::ProofChecks::proof_header_right))]
fn header_wrong(proof: &[u8], n: usize, limit: usize) -> bool
    requires { 8 ≤ length proof.now }
    ensures { result ≡ not (proof_header_right limit n proof.now) }
{
    let s = scale(proof);
    variables(proof) != n
        || proof[1] != 0
        || limit < row_count(proof)
        || s < 1
        || GREATEST_SCALE < s
}

// The checks 8 to 10, where n is the claim's; the limit is that of 9.
#[tactic(auto, unfolding(crate::specs::ProofChecks::header_answer))]
pub fn check_header(proof: &[u8], n: usize, limit: usize) -> Result<(), Sheet>
    ensures { told result ≡ header_answer limit n proof.now }
{
    if proof.len() < 8 {
        return Err(Sheet::Proof(8, 0));
    }
    if header_wrong(proof, n, limit) {
        return Err(Sheet::Proof(9, 0));
    }
    if proof.len() != proof_length(shape_of(proof)) {
        return Err(Sheet::Proof(10, 0));
    }
    Ok(())
}

// 12: whether row i has an exponent over the limit.
#[tactic(auto, using(points::proofs::points::Laws::exponents_of), unfolding(crate::specs::ProofChecks::exponent_breaks))]
fn exponent_wrong(proof: &[u8], shape: Shape, i: usize, limit: u8) -> bool
    requires { (ProofRoom proof.now shape) × (i < shape.k) }
    ensures { result ≡ exponent_breaks limit proof.now shape i }
{
    !exponents_within(row_v(proof, shape, i), limit)
        || !exponents_within(row_w(proof, shape, i), limit)
}

// 13: whether row i has no whole midpoint.
#[tactic(auto, using(points::proofs::points::Laws::exponents_of), unfolding(crate::specs::ProofChecks::midpoint_breaks))]
fn midpoint_wrong(proof: &[u8], shape: Shape, i: usize) -> bool
    requires { (ProofRoom proof.now shape) × (i < shape.k) }
    ensures { result ≡ midpoint_breaks proof.now shape i }
{
    !has_midpoint(row_v(proof, shape, i), row_w(proof, shape, i))
}

// Whether q or r is not zero.
#[tactic(auto, unfolding(crate::specs::ProofChecks::q_or_r))]
fn q_or_r(x: Triple) -> bool
    ensures { result ≡ q_or_r x }
{
    x.q != 0 || x.r != 0
}

// 14: whether row i is lone, and q or r is not zero.
#[tactic(auto, using(points::proofs::points::Laws::exponents_of), unfolding(crate::specs::ProofChecks::unused_breaks))]
fn unused_wrong(proof: &[u8], shape: Shape, i: usize) -> bool
    requires { (ProofRoom proof.now shape) × (i < shape.k) }
    ensures { result ≡ unused_breaks proof.now shape i }
{
    same(row_v(proof, shape, i), row_w(proof, shape, i)) && q_or_r(row_triple(proof, shape, i))
}

// 15 and 17: whether one of three weights is beyond ± a limit.
#[tactic(auto, unfolding(crate::specs::ProofChecks::any_beyond))]
pub fn any_beyond(x: Triple, limit: u64) -> bool
    ensures { result ≡ any_beyond limit x }
{
    is_beyond(x.p, limit) || is_beyond(x.q, limit) || is_beyond(x.r, limit)
}

// 15: whether a proposed weight of row i is beyond the limit.
#[tactic(auto, unfolding(crate::specs::ProofChecks::weight_breaks))]
fn weight_wrong(proof: &[u8], shape: Shape, i: usize, limit: u64) -> bool
    requires { (ProofRoom proof.now shape) × (i < shape.k) }
    ensures { result ≡ weight_breaks limit proof.now shape i }
{
    any_beyond(row_triple(proof, shape, i), limit)
}

// The checks 12 to 15, each over all rows before the next.
#[tactic(auto, unfolding(crate::specs::ProofChecks::rows_answer))]
pub fn check_rows(proof: &[u8], profile: Profile, shape: Shape) -> Result<(), Sheet>
    requires { (ProofRoom proof.now shape) × (InRange profile) }
    ensures { told result ≡ rows_answer proof.now profile shape }
{
    let greatest = profile.exponent as u8;
    if let Some(i) = first_at(shape.k, |i| exponent_wrong(proof, shape, i, greatest)) {
        return Err(Sheet::Proof(12, i));
    }
    if let Some(i) = first_at(shape.k, |i| midpoint_wrong(proof, shape, i)) {
        return Err(Sheet::Proof(13, i));
    }
    if let Some(i) = first_at(shape.k, |i| unused_wrong(proof, shape, i)) {
        return Err(Sheet::Proof(14, i));
    }
    let limit = profile.weight as u64;
    if let Some(i) = first_at(shape.k, |i| weight_wrong(proof, shape, i, limit)) {
        return Err(Sheet::Proof(15, i));
    }
    Ok(())
}
