// Slots of a proof sheet at one point, each time found by going over the rows.
ghost use Rattle.std.specs.Prelude.{◌≡◌, ◌+◌, ◌^◌, ◌<◌, ◌≤◌, nat_abs, length};
ghost use Rattle.integers.specs.Words.{i32_at};
ghost use Rattle.bounds.specs.Bounds.{greatest_weight};
ghost use Rattle.checks.specs.ProofChecks.{ProofFacts};
ghost use Rattle.targets.specs.Carried.{CarriedKey};
ghost use Rattle.sharing.specs.Slots.{Small, HoldsKey, CountsKey, slots_to, more, step_to, tally_of, holding_of};

use integers::words::read_i32;
use rows::proof_sheet::{triple_place, v_key, w_key};
use sheets::layout::Shape;

// What the slots at a point weigh together, and how many they are: two numbers of 64 bits, which stay in registers.
#[derive(Clone, Copy)]
pub struct Tally {
    pub sum: i64,
    pub count: u64,
}

// The same of all rows, with the number of slots there that come before one slot.
#[derive(Clone, Copy)]
pub struct Holding {
    pub sum: i64,
    pub count: u32,
    pub rank: u32,
}

// One slot more, whose weight stands at a place.
#[tactic(auto, using(crate::proofs::slots::Steps::adding))]
fn add(proof: &[u8], at: usize, a: Tally) -> Tally
    requires { (at + 4 ≤ length proof.now) × (nat_abs (i32_at proof.now at) ≤ greatest_weight) × (Small a) }
    ensures { result ≡ more (i32_at proof.now at) a }
{
    Tally {
        sum: a.sum + read_i32(proof, at),
        count: a.count + 1,
    }
}

// How many bytes after a row's first weight the one at its second end stands, or else the one at its midpoint.
// A step and one test, since two tests with two returns were slower where points are shared (docs/DECISIONS.md).
fn weight_step(second: bool) -> usize
    ensures { (result ≡ step_to second) × (result ≤ 8) }
{
    if second { 4 } else { 8 }
}

// The slots of one row more, of which one at most is at a point: a pair's midpoint has the key where twice the key is
// the sum of its ends' keys.
fn add_row(proof: &[u8], shape: Shape, i: usize, key: u64, a: Tally) -> Tally
    requires { (ProofFacts proof.now shape) × (i < shape.k) × (key < 2 ^ 63)
        × (a ≡ tally_of key (slots_to proof.now shape i)) }
    ensures { result ≡ tally_of key (slots_to proof.now shape (i + 1)) }
{
    let v = v_key(proof, shape, i);
    let w = w_key(proof, shape, i);
    let at = triple_place(shape, i);
    if key == v {
        return add(proof, at, a);
    }
    if (key == w) | (v + w == key * 2) {
        return add(proof, at + weight_step(key == w), a);
    }
    a
}

// From the slots of the first rows to those of more.
fn scan(proof: &[u8], shape: Shape, from: usize, to: usize, key: u64, mut a: Tally) -> Tally
    requires { (ProofFacts proof.now shape) × (from ≤ to) × (to ≤ shape.k) × (key < 2 ^ 63)
        × (a ≡ tally_of key (slots_to proof.now shape from)) }
    ensures { result ≡ tally_of key (slots_to proof.now shape to) }
{
    for i in from..to {
        a = add_row(proof, shape, i, key, a);
    }
    a
}

// How many slots there are at the point with a key.
pub fn slots_with(proof: &[u8], shape: Shape, key: u64) -> u32
    requires { (ProofFacts proof.now shape) × (CarriedKey shape.n key) }
    ensures { CountsKey proof.now shape key result }
{
    let all = scan(proof, shape, 0, shape.k, key, Tally { sum: 0, count: 0 });
    all.count as u32
}

// The slots with a key, seen from one of row i; `own` says how many of the row's own are before it there.
#[tactic(auto, using(crate::proofs::slots::Steps::holding))]
pub(crate) fn held(proof: &[u8], shape: Shape, i: usize, own: u32, key: u64) -> Holding
    requires { (ProofFacts proof.now shape) × (i < shape.k) × (own < 65536) × (key < 2 ^ 63) }
    ensures { result ≡ holding_of key (slots_to proof.now shape shape.k)
        (slots_to proof.now shape i) own }
{
    let before = scan(proof, shape, 0, i, key, Tally { sum: 0, count: 0 });
    let all = scan(proof, shape, i, shape.k, key, before);
    Holding {
        sum: all.sum,
        count: all.count as u32,
        rank: before.count as u32 + own,
    }
}

// Whether row i has a slot at the point with a key.
pub fn holds_key(proof: &[u8], shape: Shape, i: usize, key: u64) -> bool
    requires { (ProofFacts proof.now shape) × (i < shape.k) × (CarriedKey shape.n key) }
    ensures { HoldsKey proof.now shape key i result }
{
    let v = v_key(proof, shape, i);
    let w = w_key(proof, shape, i);
    (key == v) | (key == w) | (v + w == key * 2)
}
