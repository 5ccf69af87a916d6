// Evaluation of a claim's polynomial at offsets: the exact value, or a refusal.
ghost use Rattle.std.specs.Prelude.{◌≡◌, ◌<◌};
ghost use Rattle.monomials.specs.Powers.{within};
ghost use Rattle.sheets.specs.Layout.{ClaimRoom};
ghost use Rattle.evaluation.specs.Evaluations.{term_value, value, tells, summed, evaluation_of};
ghost use Rattle.evaluation.specs.Promises.{EvaluationPromises};

use answers::answers::Sheet;
use bounds::profiles::Profile;
use claims::claim_checks::check_claim;
use monomials::powers::term;
use sheets::claim_sheet::{coefficient, term_count, term_point};
use sheets::layout::variables;

// The value of term i.
#[tactic(auto, using(points::proofs::points::Laws::exponents_of), unfolding(crate::specs::Evaluations::term_value))]
fn term_value(claim: &[u8], n: usize, t: usize, offsets: &[i32], i: usize) -> Option<i64>
    requires { (ClaimRoom claim.now n t) × (i < t) }
    ensures { result ≡ within (term_value claim.now n t offsets.now i) }
{
    term(
        coefficient(claim, n, t, i),
        term_point(claim, n, t, i),
        offsets,
    )
}

// The sum of the terms, or 21 at the first that is too large.
fn summed(claim: &[u8], n: usize, t: usize, offsets: &[i32]) -> Result<i64, Sheet>
    requires { ClaimRoom claim.now n t }
    ensures { tells result ≡ summed claim.now n t offsets.now }
{
    let mut sum = 0;
    for i in 0..t {
        let Some(v) = term_value(claim, n, t, offsets, i) else {
            return Err(Sheet::Claim(21, i));
        };
        sum += v;
    }
    Ok(sum)
}

// The exact value of the polynomial, or the first refusal of 27, 1 to 7, 20 and 21.
#[tactic(auto, using(crate::proofs::evaluations::Steps::claim_refused, crate::proofs::evaluations::Steps::offsets_refused, crate::proofs::evaluations::Steps::all_summed, claims::proofs::claim_checks::Laws::claim_long))]
pub fn evaluate(claim: &[u8], profile: Profile, offsets: &[i32]) -> Result<i64, Sheet>
    ensures answer { tells result ≡ evaluation_of claim.now profile offsets.now }
    ensures promises { EvaluationPromises claim.now profile offsets.now
        (λ z. tells result ≡ value z) }
{
    check_claim(claim, profile)?;
    let n = variables(claim);
    if offsets.len() != n {
        return Err(Sheet::Offsets(20, 0));
    }
    summed(claim, n, term_count(claim), offsets)
}
