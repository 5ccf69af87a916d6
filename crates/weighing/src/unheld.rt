// Check 16: a target that is not zero needs a slot.
ghost use Rattle.std.specs.Prelude.{◌≡◌, ◌<◌, ◌≤◌, eqb, nat_abs, length};
ghost use Rattle.answers.specs.Searches.{first};
ghost use Rattle.points.specs.Points.{exponents, point_of};
ghost use Rattle.sheets.specs.Layout.{variables, term_count};
ghost use Rattle.claims.specs.ClaimChecks.{ClaimFacts};
ghost use Rattle.targets.specs.Targets.{Targeted, target_of};
ghost use Rattle.sharing.specs.Shifts.{CheckedSheets};
ghost use Rattle.weighing.specs.Unheld.{point_count, point_for, unheld};

use bounds::bounds::MOST_VARIABLES;
use keys::keys::key_of;
use limits::limits_sheet::{Limits, limit_in};
use points::points::{Point, pure_power};
use rows::proof_sheet::shape_of;
use sharing::slots::{holds_key, slots_with};
use sheets::claim_sheet::{term_count, term_point};
use sheets::layout::variables;
use targets::targets::{Aim, target_at, term_target};

// How many points are looked at: those of the terms, the constant's, and one for the limit of each variable.
pub fn point_count(claim: &[u8]) -> usize
    requires { 8 ≤ length claim.now }
    ensures { (result ≡ point_count (variables claim.now) (term_count claim.now)) × (result ≤ 511) }
{
    term_count(claim) + 1 + variables(claim)
}

// Point i: of a term, after the terms the constant's, and then the pure power of each variable's limit.
#[tactic(auto, using(points::proofs::points::Laws::zeros_point), unfolding(crate::specs::Unheld::point_for))]
fn point_for(claim: &[u8], limits: Limits, n: usize, t: usize, i: usize) -> Point
    requires { (ClaimFacts claim.now n t) × (i < point_count n t) }
    ensures { result ≡ point_of (point_for claim.now limits n t i) }
{
    if i < t {
        return term_point(claim, n, t, i);
    }
    if i == t {
        return Point {
            exps: [0; MOST_VARIABLES],
            n,
        };
    }
    let j = i - t - 1;
    pure_power(n, j, limit_in(limits, j).power)
}

// Whether the target is zero at p, which is point i.
#[tactic(auto, using(crate::proofs::unheld::Laws::point_term))]
fn no_target(claim: &[u8], aim: Aim, i: usize, p: Point, key: u64) -> bool
    requires { (Targeted claim.now aim (exponents p) key)
        × (exponents p ≡ point_for claim.now aim.limits (variables claim.now) (term_count claim.now) i) }
    ensures { result ≡ eqb (nat_abs (target_of claim.now aim (exponents p))) 0 }
{
    if i < term_count(claim) {
        term_target(claim, aim, i, p, key) == 0
    } else {
        target_at(claim, aim, p, key) == 0
    }
}

// Whether point i has a target that is not zero and no row holds it.
#[tactic(auto, using(points::proofs::points::Laws::exponents_of, sharing::proofs::slots::Laws::all_slots, crate::proofs::unheld::Laws::point_sized, crate::proofs::unheld::Steps::point_within, crate::proofs::unheld::Steps::key_carried), unfolding(crate::specs::Unheld::unheld, crate::specs::Unheld::unheld_at))]
pub fn is_unheld(claim: &[u8], proof: &[u8], aim: Aim, i: usize) -> bool
    requires { (CheckedSheets claim.now proof.now aim)
        × (i < point_count (variables claim.now) (term_count claim.now)) }
    ensures { result ≡ unheld claim.now proof.now aim i }
{
    let p = point_for(claim, aim.limits, variables(claim), term_count(claim), i);
    let key = key_of(p);
    !no_target(claim, aim, i, p, key) && slots_with(proof, shape_of(proof), key) == 0
}

// The first point whose target is not zero and that no row holds. Terms outside, rows inside: a slot that is found
// continues the labelled outer loop, a miss ends the search (a rule of the project).
#[tactic(auto, using(points::proofs::points::Laws::exponents_of, answers::proofs::searches::Laws::first_found, crate::proofs::unheld::Laws::point_sized, crate::proofs::unheld::Steps::point_within, crate::proofs::unheld::Steps::key_carried, crate::proofs::unheld::Steps::not_in_row, crate::proofs::unheld::Steps::in_no_row), unfolding(answers::specs::Searches::first, answers::specs::Searches::kept, crate::specs::Unheld::unheld, crate::specs::Unheld::unheld_at))]
pub(crate) fn first_unheld(claim: &[u8], proof: &[u8], aim: Aim) -> Option<usize>
    requires { CheckedSheets claim.now proof.now aim }
    ensures { result ≡ first (unheld claim.now proof.now aim)
        (point_count (variables claim.now) (term_count claim.now)) }
{
    let n = variables(claim);
    let t = term_count(claim);
    let shape = shape_of(proof);
    'points: for i in 0..point_count(claim) {
        let p = point_for(claim, aim.limits, n, t, i);
        let key = key_of(p);
        if no_target(claim, aim, i, p, key) {
            continue 'points;
        }
        for j in 0..shape.k {
            if holds_key(proof, shape, j, key) {
                continue 'points;
            }
        }
        return Some(i);
    }
    None
}
