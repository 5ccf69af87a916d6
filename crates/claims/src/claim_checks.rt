// Checks of the claim: refusals 1 to 7, and before them 27.
ghost use Rattle.std.specs.Prelude.{◌≡◌, not, false, ◌↔◌, ◌<◌, ◌≤◌, length};
ghost use Rattle.bounds.specs.Bounds.{most_variables};
ghost use Rattle.bounds.specs.Profiles.{InRange};
ghost use Rattle.answers.specs.Answers.{told};
ghost use Rattle.sheets.specs.Layout.{variables, ClaimRoom};
ghost use Rattle.claims.specs.ClaimChecks.{counts_right, MaskWithin, mask_right, claim_header_right, coefficient_breaks, exponent_breaks, order_breaks, terms_answer, claim_answer};

use answers::answers::Sheet;
use answers::searches::first_at;
use bounds::bounds::{GREATEST_WEIGHT, MOST_TERMS, MOST_VARIABLES, is_beyond};
use bounds::profiles::{Profile, profile_wrong};
use points::points::{exponents_within, rises};
use sheets::claim_sheet::{coefficient, floor, mask, term_count, term_point};
use sheets::layout::{place_of, variables};

// Whether n or t is wrong.
#[tactic(auto, unfolding(crate::specs::ClaimChecks::counts_right))]
fn counts_wrong(claim: &[u8]) -> bool
    requires { 8 ≤ length claim.now }
    ensures { result ≡ not (counts_right claim.now) }
{
    let n = variables(claim);
    n < 1 || MOST_VARIABLES < n || MOST_TERMS < term_count(claim)
}

// Whether the mask has a bit at or above n.
#[tactic(auto, using(points::proofs::points::Laws::rest_means), unfolding(crate::specs::ClaimChecks::mask_right))]
fn mask_wrong(claim: &[u8]) -> bool
    requires { (8 ≤ length claim.now) × (variables claim.now ≤ most_variables) }
    ensures test { result ≡ not (mask_right claim.now) }
    ensures says { (result ≡ false) ↔ MaskWithin claim.now }
{
    mask(claim) as u64 >> variables(claim) != 0
}

// 2: whether n, t, the mask or byte 3 is wrong.
#[tactic(auto, using(crate::proofs::claim_checks::Laws::counts_fact), unfolding(crate::specs::ClaimChecks::claim_header_right))]
pub fn header_wrong(claim: &[u8]) -> bool
    requires { 8 ≤ length claim.now }
    ensures { result ≡ not (claim_header_right claim.now) }
{
    counts_wrong(claim) || mask_wrong(claim) || claim[3] != 0
}

// 5: whether coefficient i is zero or beyond the limit.
#[tactic(auto, unfolding(crate::specs::ClaimChecks::coefficient_breaks))]
fn coefficient_wrong(claim: &[u8], n: usize, t: usize, i: usize, limit: u64) -> bool
    requires { (ClaimRoom claim.now n t) × (i < t) }
    ensures { result ≡ coefficient_breaks limit claim.now n t i }
{
    let x = coefficient(claim, n, t, i);
    x == 0 || is_beyond(x, limit)
}

// 6: whether term i has an exponent over the limit.
#[tactic(auto, using(points::proofs::points::Laws::exponents_of), unfolding(crate::specs::ClaimChecks::exponent_breaks))]
fn exponent_wrong(claim: &[u8], n: usize, t: usize, i: usize, limit: u8) -> bool
    requires { (ClaimRoom claim.now n t) × (i < t) }
    ensures { result ≡ exponent_breaks limit claim.now n t i }
{
    !exponents_within(term_point(claim, n, t, i), limit)
}

// 7: whether point i is not above the one before.
#[tactic(auto, using(points::proofs::points::Laws::exponents_of), unfolding(crate::specs::ClaimChecks::order_breaks))]
fn order_wrong(claim: &[u8], n: usize, t: usize, i: usize) -> bool
    requires { (ClaimRoom claim.now n t) × (i < t) }
    ensures { result ≡ order_breaks claim.now n t i }
{
    0 < i && !rises(term_point(claim, n, t, i - 1), term_point(claim, n, t, i))
}

// The checks 5 to 7 of the terms, each over all of them before the next.
#[tactic(auto, unfolding(crate::specs::ClaimChecks::terms_answer))]
fn check_terms(claim: &[u8], profile: Profile, n: usize, t: usize) -> Result<(), Sheet>
    requires { (ClaimRoom claim.now n t) × (InRange profile) }
    ensures { told result ≡ terms_answer claim.now profile n t }
{
    if let Some(i) = first_at(t, |i| coefficient_wrong(claim, n, t, i, GREATEST_WEIGHT)) {
        return Err(Sheet::Claim(5, i));
    }
    let limit = profile.exponent as u8;
    if let Some(i) = first_at(t, |i| exponent_wrong(claim, n, t, i, limit)) {
        return Err(Sheet::Claim(6, i));
    }
    if let Some(i) = first_at(t, |i| order_wrong(claim, n, t, i)) {
        return Err(Sheet::Claim(7, i));
    }
    Ok(())
}

// The checks 27 of the profile and 1 to 7.
#[tactic(auto, using(crate::proofs::claim_checks::Laws::header_room), unfolding(crate::specs::ClaimChecks::claim_answer))]
pub fn check_claim(claim: &[u8], profile: Profile) -> Result<(), Sheet>
    ensures { told result ≡ claim_answer claim.now profile }
{
    if profile_wrong(profile) {
        return Err(Sheet::Profile(27, 0));
    }
    if claim.len() < 8 {
        return Err(Sheet::Claim(1, 0));
    }
    if header_wrong(claim) {
        return Err(Sheet::Claim(2, 0));
    }
    let n = variables(claim);
    let t = term_count(claim);
    if claim.len() != place_of(8, t, n + 4) {
        return Err(Sheet::Claim(3, 0));
    }
    if is_beyond(floor(claim), GREATEST_WEIGHT) {
        return Err(Sheet::Claim(4, 0));
    }
    check_terms(claim, profile, n, t)
}
