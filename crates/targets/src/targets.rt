// Targets: what the weights at a point are to add up to.
ghost use Rattle.std.specs.Prelude.{◌≡◌, ◌+◌, ◌^◌, ◌<◌, ◌≤◌, pos, nat_abs, ◌*ℤ◌, length};
ghost use Rattle.bounds.specs.Bounds.{most_variables, greatest_weight, greatest_scale};
ghost use Rattle.points.specs.Points.{exponents};
ghost use Rattle.squares.specs.Targets.{worst};
ghost use Rattle.sheets.specs.Layout.{variables, term_count, LimitsRoom};
ghost use Rattle.sheets.specs.ClaimSheet.{term_point};
ghost use Rattle.claims.specs.ClaimChecks.{ClaimFacts};
ghost use Rattle.targets.specs.Targets.{aim_of, at_floor, AimWithin, Targeted, target_of, has_key, coefficient_with, lowered_by, target_with};

use answers::searches::first_at;
use limits::additions::limits_add;
use limits::limits_sheet::{Limits, limits_of};
use points::points::{Point, keeps_sign};
use rows::proof_sheet::scale;
use sheets::claim_sheet::{coefficient, floor, mask, term_count, term_key};
use sheets::layout::variables;

// What a target depends on besides the claim's terms and mask: the floor, the scale and the limits.
#[derive(Clone, Copy)]
pub struct Aim {
    pub floor: i64,
    pub scale: u64,
    pub limits: Limits,
}

// The claim's floor, the proof's scale and the sheet's limits.
#[tactic(auto, unfolding(crate::specs::Targets::aim_of))]
pub fn aim_of(claim: &[u8], proof: &[u8], limits: &[u8]) -> Aim
    requires { (8 ≤ length claim.now) × (8 ≤ length proof.now)
        × (LimitsRoom limits.now (variables claim.now)) }
    ensures { result ≡ aim_of claim.now proof.now limits.now }
{
    Aim {
        floor: floor(claim),
        scale: scale(proof),
        limits: limits_of(limits, variables(claim)),
    }
}

// The same with another floor.
#[tactic(auto, unfolding(crate::specs::Targets::at_floor))]
pub fn at_floor(aim: Aim, b: i64) -> Aim
    ensures { result ≡ at_floor aim b }
{
    Aim { floor: b, ..aim }
}

// Whether term i has a key.
#[tactic(auto, unfolding(crate::specs::Targets::has_key))]
fn has_key(claim: &[u8], n: usize, t: usize, i: usize, key: u64) -> bool
    requires { (ClaimFacts claim.now n t) × (i < t) }
    ensures { result ≡ has_key claim.now n key i }
{
    key == term_key(claim, n, t, i)
}

// The coefficient of the term that has a key, 0 where there is none.
#[tactic(auto, unfolding(crate::specs::Targets::coefficient_with, crate::specs::Targets::coefficient_found))]
fn coefficient_with(claim: &[u8], n: usize, t: usize, key: u64) -> i64
    requires { ClaimFacts claim.now n t }
    ensures { (result ≡ coefficient_with claim.now n t key) × (nat_abs result ≤ greatest_weight) }
{
    match first_at(t, |i| has_key(claim, n, t, i, key)) {
        Some(i) => coefficient(claim, n, t, i),
        None => 0,
    }
}

// A coefficient, less the floor where it is the constant's.
#[tactic(auto, unfolding(crate::specs::Targets::lowered_by))]
fn lowered_by(c: i64, aim: Aim, key: u64) -> i64
    requires { (nat_abs c ≤ greatest_weight) × (AimWithin aim) }
    ensures { (result ≡ lowered_by aim key c) × (nat_abs result ≤ 2 ^ 31) }
{
    if key == 0 {
        return c - aim.floor;
    }
    c
}

// A coefficient with the worst sign: as it stands where the point keeps its sign, else minus its absolute value.
#[tactic(auto, using(squares::proofs::Targets::worst_kept, squares::proofs::Targets::worst_negative, squares::proofs::Targets::worst_positive))]
fn worst(keeps: bool, c: i64) -> i64
    requires { nat_abs c ≤ 2 ^ 31 }
    ensures { (result ≡ worst keeps c) × (nat_abs result ≤ 2 ^ 31) }
{
    if keeps {
        return c;
    }
    if c < 0 {
        return c;
    }
    0 - c
}

// A number times the scale.
fn scaled(scale: u64, c: i64) -> i64
    requires { (scale ≤ greatest_scale) × (nat_abs c ≤ 2 ^ 31) }
    ensures { (result ≡ pos scale *ℤ c) × (nat_abs result ≤ 2 ^ 51) }
{
    scale as i64 * c
}

// The target at a point of n exponents, by the mask, its key and its coefficient. Limits are not multiplied by the
// scale.
fn target_with(n: usize, mask: u8, aim: Aim, p: Point, key: u64, c: i64) -> i64
    requires { (n ≤ most_variables) × (nat_abs c ≤ greatest_weight) × (AimWithin aim) }
    ensures { (result ≡ target_with n mask aim (exponents p) key c) × (nat_abs result ≤ 2 ^ 51 + 2 ^ 59) }
{
    let lowered = lowered_by(c, aim, key);
    let own = scaled(aim.scale, worst(keeps_sign(p, mask), lowered));
    own + limits_add(aim.limits, n, key)
}

// The target at a point with its key.
pub fn target_at(claim: &[u8], aim: Aim, p: Point, key: u64) -> i64
    requires { Targeted claim.now aim (exponents p) key }
    ensures { (result ≡ target_of claim.now aim (exponents p)) × (nat_abs result ≤ 2 ^ 51 + 2 ^ 59) }
{
    let n = variables(claim);
    let t = term_count(claim);
    let found = coefficient_with(claim, n, t, key);
    target_with(n, mask(claim), aim, p, key, found)
}

// The target at the point of term i, with its key.
pub fn term_target(claim: &[u8], aim: Aim, i: usize, p: Point, key: u64) -> i64
    requires { (Targeted claim.now aim (exponents p) key) × (i < term_count claim.now)
        × (exponents p ≡ term_point claim.now (variables claim.now) i) }
    ensures { (result ≡ target_of claim.now aim (exponents p)) × (nat_abs result ≤ 2 ^ 51 + 2 ^ 59) }
{
    let n = variables(claim);
    let t = term_count(claim);
    let own = coefficient(claim, n, t, i);
    target_with(n, mask(claim), aim, p, key, own)
}
