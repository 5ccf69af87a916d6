// The exact proof: the proof sheet with its shifted weights, in the output.
ghost use Rattle.std.specs.Prelude.{◌≡◌, ◌++◌, ◌≤◌, length, drop};
ghost use Rattle.sheets.specs.Layout.{row_count, shape_of};
ghost use Rattle.writing.specs.Writing.{with_rows};
ghost use Rattle.targets.specs.Targets.{target_of};
ghost use Rattle.weighing.specs.Exact.{Writable, weights_for, exact_proof};

use rows::proof_sheet::shape_of;
use sharing::shifts::shifted_row;
use targets::targets::Aim;
use writing::writing::write_weights;

// The shifted weights of every row, in bytes that have room for the proof.
#[tactic(auto, using(integers::proofs::Integers::fits_within, writing::proofs::writing::Laws::rows_none, writing::proofs::writing::Laws::rows_more, writing::proofs::writing::Laws::rows_length), unfolding(rows::specs::ProofSheet::by_value, crate::specs::Exact::weights_for))]
fn write_rows(claim: &[u8], proof: &[u8], aim: Aim, out: &mut [u8])
    requires { Writable claim.now proof.now aim out.old }
    ensures { out.new ≡ with_rows (weights_for (target_of claim.now aim) proof.now)
        out.old (shape_of proof.now) (row_count proof.now) }
{
    let shape = shape_of(proof);
    for i in 0..shape.k {
        write_weights(out, shape, i, shifted_row(claim, proof, aim, i).weights);
    }
}

// The exact proof in the output's first bytes; the later ones keep their values.
#[tactic(auto, using(writing::proofs::writing::Laws::rows_append), unfolding(crate::specs::Exact::exact_proof))]
pub fn write_exact(claim: &[u8], proof: &[u8], aim: Aim, out: &mut [u8])
    requires { Writable claim.now proof.now aim out.old }
    ensures { out.new ≡ exact_proof (target_of claim.now aim) proof.now
        ++ drop (length proof.now) out.old }
{
    out[..proof.len()].copy_from_slice(proof);
    write_rows(claim, proof, aim, out);
}
