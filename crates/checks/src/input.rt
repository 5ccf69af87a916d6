// The checks 27, 1 to 15 with 24 and 25 among them, in their order and in two parts: up to 10, and what follows.
ghost use Rattle.std.specs.Prelude.{◌≡◌, ◌≤◌};
ghost use Rattle.bounds.specs.Bounds.{most_variables};
ghost use Rattle.bounds.specs.Profiles.{InRange};
ghost use Rattle.answers.specs.Answers.{told};
ghost use Rattle.sheets.specs.Layout.{shape_of, ProofRoom};
ghost use Rattle.checks.specs.Input.{head_answer, room_answer, body_answer, rest_answer, input_answer};

use crate::proof_checks::{check_header, check_rows};
use answers::answers::Sheet;
use bounds::profiles::Profile;
use claims::claim_checks::check_claim;
use limits::limit_checks::check_limits;
use rows::proof_sheet::shape_of;
use sheets::layout::variables;

// The checks 27, 1 to 10: the profile, the claim, and the proof's header.
#[tactic(auto, using(answers::proofs::answers::Laws::then_refused, answers::proofs::answers::Laws::then_passed, claims::proofs::claim_checks::Laws::claim_long), unfolding(crate::specs::Input::head_answer))]
pub fn check_head(claim: &[u8], proof: &[u8], profile: Profile) -> Result<(), Sheet>
    ensures { told result ≡ head_answer claim.now proof.now profile }
{
    check_claim(claim, profile)?;
    check_header(proof, variables(claim), profile.rows as usize)
}

// 11: whether an output has room for what is asked.
#[tactic(auto, unfolding(crate::specs::Input::room_answer))]
pub fn check_room(asked: usize, room: usize) -> Result<(), Sheet>
    ensures { told result ≡ room_answer asked room }
{
    if room < asked {
        return Err(Sheet::Output(11, 0));
    }
    Ok(())
}

// The checks 11 to 15; the room is the output's length.
#[tactic(auto, using(answers::proofs::answers::Laws::then_refused, answers::proofs::answers::Laws::then_passed), unfolding(crate::specs::Input::body_answer))]
fn check_body(proof: &[u8], profile: Profile, room: usize) -> Result<(), Sheet>
    requires { (ProofRoom proof.now (shape_of proof.now)) × (InRange profile) }
    ensures { told result ≡ body_answer proof.now profile room }
{
    check_room(proof.len(), room)?;
    check_rows(proof, profile, shape_of(proof))
}

// The checks 24 and 25, then 11 to 15; n is the claim's.
#[tactic(auto, using(answers::proofs::answers::Laws::then_refused, answers::proofs::answers::Laws::then_passed), unfolding(crate::specs::Input::rest_answer))]
fn check_rest(
    proof: &[u8],
    limits: &[u8],
    profile: Profile,
    n: usize,
    room: usize,
) -> Result<(), Sheet>
    requires { (ProofRoom proof.now (shape_of proof.now)) × (InRange profile) × (n ≤ most_variables) }
    ensures { told result ≡ rest_answer n proof.now limits.now profile room }
{
    check_limits(limits, n)?;
    check_body(proof, profile, room)
}

// All of them: 27, 1 to 10, 24, 25, 11 to 15.
#[tactic(auto, using(answers::proofs::answers::Laws::then_refused, answers::proofs::answers::Laws::then_passed, crate::proofs::input::Laws::claim_read), unfolding(crate::specs::Input::input_answer))]
pub fn check_input(
    claim: &[u8],
    proof: &[u8],
    limits: &[u8],
    profile: Profile,
    room: usize,
) -> Result<(), Sheet>
    ensures { told result
        ≡ input_answer claim.now proof.now limits.now profile room }
{
    check_head(claim, proof, profile)?;
    check_rest(proof, limits, profile, variables(claim), room)
}
