// The checks of a proof by itself: 8 to 10 and 12 to 15, beside whatever claim of as many variables.
ghost use Rattle.std.specs.Prelude.{◌≡◌, ◌≤◌, length};
ghost use Rattle.bounds.specs.Bounds.{most_variables};
ghost use Rattle.answers.specs.Answers.{told};
ghost use Rattle.sheets.specs.Layout.{variables};
ghost use Rattle.proof_listing.specs.OwnChecks.{sized_answer, own_answer};

use answers::answers::Sheet;
use bounds::bounds::MOST_ROWS;
use bounds::profiles::FULL;
use checks::proof_checks::{check_header, check_rows};
use listings::variables::variables_wrong;
use rows::proof_sheet::shape_of;
use sheets::layout::variables;

// The checks 9, 10 and 12 to 15 of a proof with 1 to 8 variables.
#[tactic(auto, using(answers::proofs::answers::Laws::then_refused, answers::proofs::answers::Laws::then_passed), unfolding(crate::specs::OwnChecks::sized_answer))]
fn check_sized(proof: &[u8]) -> Result<(), Sheet>
    requires { (8 ≤ length proof.now) × (1 ≤ variables proof.now) × (variables proof.now ≤ most_variables) }
    ensures { told result ≡ sized_answer proof.now }
{
    check_header(proof, variables(proof), MOST_ROWS)?;
    check_rows(proof, FULL, shape_of(proof))
}

// All of them.
#[tactic(auto, using(listings::proofs::variables::Laws::right_variables), unfolding(crate::specs::OwnChecks::own_answer))]
pub fn check_own(proof: &[u8]) -> Result<(), Sheet>
    ensures { told result ≡ own_answer proof.now }
{
    if proof.len() < 8 {
        return Err(Sheet::Proof(8, 0));
    }
    if variables_wrong(variables(proof)) {
        return Err(Sheet::Proof(9, 0));
    }
    check_sized(proof)
}
