// The whole check: the verdict on a claim and its proof within limits and a profile, and the exact proof in the output.
ghost use Rattle.std.specs.Prelude.{◌≡◌, length};
ghost use Rattle.answers.specs.Answers.{says, counted, Passes};
ghost use Rattle.judging.specs.Check.{check_answer, output_of};
ghost use Rattle.judging.specs.Promises.{LongEnough, CheckPromises};

use answers::answers::{Sheet, Verdict};
use bounds::profiles::Profile;
use checks::input::check_input;
use targets::targets::aim_of;
use weighing::exact::write_exact;
use weighing::weighed::weigh;

// The check by its numbers: how many rows, and the exact proof in the output, or the sheet at fault.
#[tactic(auto, using(crate::proofs::check::Steps::input_refused, crate::proofs::check::Steps::claim_read, crate::proofs::check::Steps::proof_read, crate::proofs::check::Steps::limits_read, crate::proofs::check::Steps::check_weighed, crate::proofs::check::Steps::accepted_output))]
fn judged(
    claim: &[u8],
    proof: &[u8],
    limits: &[u8],
    profile: Profile,
    output: &mut [u8],
) -> Result<usize, Sheet>
    ensures verdict { counted result ≡ check_answer claim.now proof.now limits.now
        profile (length output.old) }
    ensures written { output.new ≡ output_of claim.now proof.now
        limits.now profile output.old }
{
    check_input(claim, proof, limits, profile, output.len())?;
    let aim = aim_of(claim, proof, limits);
    let k = weigh(claim, proof, aim, profile.weight as u64)?;
    write_exact(claim, proof, aim, output);
    Ok(k)
}

// Checks a claim and its proof within limits, under a site's profile. Where they are accepted the output's first bytes
// become the exact proof, and the later ones keep their values; a refusal writes nothing.
pub fn check(
    claim: &[u8],
    proof: &[u8],
    limits: &[u8],
    profile: Profile,
    output: &mut [u8],
) -> Verdict
    ensures verdict { says result ≡ check_answer claim.now proof.now limits.now
        profile (length output.old) }
    ensures written { output.new ≡ output_of claim.now proof.now
        limits.now profile output.old }
    ensures promises { CheckPromises claim.now proof.now limits.now profile
        output.old (LongEnough proof.now output.old) (Passes (says result)) (says result).value
        output.new }
{
    judged(claim, proof, limits, profile, output).into()
}
