// Shifted weights: each slot's weight with its share of the error at its point.
ghost use Rattle.std.specs.Prelude.{◌≡◌, ◌+◌, ◌<◌, ◌≤◌, ◌^◌, nat_abs, ◌+ℤ◌, ◌-ℤ◌};
ghost use Rattle.integers.specs.Division.{share};
ghost use Rattle.bounds.specs.Bounds.{greatest_weight};
ghost use Rattle.points.specs.Points.{exponents};
ghost use Rattle.squares.specs.Rows.{slots};
ghost use Rattle.sheets.specs.Layout.{variables, row_count};
ghost use Rattle.rows.specs.ProofSheet.{rows_of, by_value};
ghost use Rattle.targets.specs.Targets.{target_of};
ghost use Rattle.targets.specs.Carried.{Carried};
ghost use Rattle.sharing.specs.Sharing.{count, shifted_weight};
ghost use Rattle.sharing.specs.Shifts.{CheckedSheets, IsRow, slots_before, shifted_row};

use crate::slots::{Holding, held};
use integers::division::share;
use keys::keys::key_of;
use points::points::{Point, midpoint};
use rows::proof_sheet::{Row, row_at, shape_of};
use squares::rows::Weights;
use targets::targets::{Aim, target_at};

// A weight with its share of the error.
#[tactic(auto, using(crate::proofs::shifts::Steps::moving))]
fn moved(x: i64, target: i64, h: Holding) -> i64
    requires { (nat_abs x ≤ greatest_weight) × (nat_abs target ≤ 2 ^ 51 + 2 ^ 59) × (nat_abs h.sum ≤ 2 ^ 42)
        × (0 < h.count) }
    ensures { result ≡ x +ℤ share (target -ℤ h.sum) h.count h.rank }
{
    x + share(target - h.sum, h.count, h.rank)
}

// The weight x of a slot of row i at p, shifted; `own` says how many of the row's own are before it there.
fn shifted(claim: &[u8], proof: &[u8], aim: Aim, i: usize, own: u32, p: Point, x: i64) -> i64
    requires { (CheckedSheets claim.now proof.now aim) × (i < row_count proof.now)
        × (Carried (variables claim.now) (exponents p)) × (nat_abs x ≤ greatest_weight)
        × (count (exponents p) (slots_before proof.now i) + own < count (exponents p) (slots (rows_of proof.now))) }
    ensures { result ≡ shifted_weight (target_of claim.now aim) (slots (rows_of proof.now))
        (count (exponents p) (slots_before proof.now i) + own) (exponents p) x }
{
    let key = key_of(p);
    let h = held(proof, shape_of(proof), i, own, key);
    moved(x, target_at(claim, aim, p, key), h)
}

// The weights of row i, shifted. A row holds a point at most once.
fn shifted_weights(claim: &[u8], proof: &[u8], aim: Aim, i: usize, row: Row) -> Weights
    requires { (CheckedSheets claim.now proof.now aim) × (i < row_count proof.now)
        × (IsRow proof.now i row.v row.w row.weights) }
    ensures { result ≡ (shifted_row (target_of claim.now aim) proof.now i).weights }
{
    match row.weights {
        Weights::Pair(p, q, r) => Weights::Pair(
            shifted(claim, proof, aim, i, 0, row.v, p),
            shifted(claim, proof, aim, i, 0, row.w, q),
            shifted(claim, proof, aim, i, 0, midpoint(row.v, row.w), r),
        ),
        Weights::Lone(p) => Weights::Lone(shifted(claim, proof, aim, i, 0, row.v, p)),
    }
}

// Row i with its shifted weights.
#[tactic(auto, using(crate::proofs::shifts::Steps::row_shifting))]
pub fn shifted_row(claim: &[u8], proof: &[u8], aim: Aim, i: usize) -> Row
    requires { (CheckedSheets claim.now proof.now aim) × (i < row_count proof.now) }
    ensures { result ≡ by_value (shifted_row (target_of claim.now aim) proof.now i) }
{
    let row = row_at(proof, shape_of(proof), i);
    Row {
        weights: shifted_weights(claim, proof, aim, i, row),
        ..row
    }
}
