// The proof sheet's fields: its shape, its scale and its rows by value.
ghost use Rattle.std.specs.Prelude.{◌≡◌, ◌<◌, ◌≤◌, length};
ghost use Rattle.bounds.specs.Bounds.{most_variables, most_rows};
ghost use Rattle.points.specs.Points.{point_of};
ghost use Rattle.keys.specs.Keys.{key_of};
ghost use Rattle.sheets.specs.Layout.{row_count, shape_of, v_at, triple_at, proof_length, ProofRoom};
ghost use Rattle.rows.specs.ProofSheet.{scale_of, v_of, w_of, triple_of, weights_of, row_of, by_value, triple_for};

use integers::words::{read_i32, read_u16, read_u32};
use keys::keys::key_from;
use points::points::{Point, point_at, same};
use sheets::layout::{Shape, place_of, variables};
use squares::rows::Weights;

// A row's three numbers, as the sheet has them.
#[derive(Clone, Copy)]
pub struct Triple {
    pub p: i64,
    pub q: i64,
    pub r: i64,
}

// A row: its two points beside its weights.
#[derive(Clone, Copy)]
pub struct Row {
    pub v: Point,
    pub w: Point,
    pub weights: Weights,
}

// The number of rows k.
pub fn row_count(proof: &[u8]) -> usize
    requires { 8 ≤ length proof.now }
    ensures { (result ≡ row_count proof.now) × (result ≤ 65535) }
{
    read_u16(proof, 2) as usize
}

// n and k.
pub fn shape_of(proof: &[u8]) -> Shape
    requires { 8 ≤ length proof.now }
    ensures { (result ≡ shape_of proof.now) × (result.n ≤ 255) × (result.k ≤ 65535) }
{
    Shape {
        n: variables(proof),
        k: row_count(proof),
    }
}

// How long a proof is.
pub fn proof_length(shape: Shape) -> usize
    requires { (shape.n ≤ 255) × (shape.k ≤ 65535) }
    ensures { result ≡ proof_length shape }
{
    place_of(8, shape.k, 2 * shape.n + 12)
}

// The scale S.
pub fn scale(proof: &[u8]) -> u64
    requires { 8 ≤ length proof.now }
    ensures { result ≡ scale_of proof.now }
{
    read_u32(proof, 4)
}

// Where the points of row i begin.
pub fn row_place(shape: Shape, i: usize) -> usize
    requires { (shape.n ≤ most_variables) × (shape.k ≤ most_rows) × (i < shape.k) }
    ensures { (result ≡ v_at shape i) × (result ≤ 4088) }
{
    place_of(8, i, 2 * shape.n)
}

// The first point of row i.
pub fn row_v(proof: &[u8], shape: Shape, i: usize) -> Point
    requires { (ProofRoom proof.now shape) × (i < shape.k) }
    ensures { result ≡ point_of (v_of proof.now shape i) }
{
    point_at(proof, row_place(shape, i), shape.n)
}

// The second point of row i.
pub fn row_w(proof: &[u8], shape: Shape, i: usize) -> Point
    requires { (ProofRoom proof.now shape) × (i < shape.k) }
    ensures { result ≡ point_of (w_of proof.now shape i) }
{
    point_at(proof, row_place(shape, i) + shape.n, shape.n)
}

// The key of row i's first point.
pub fn v_key(proof: &[u8], shape: Shape, i: usize) -> u64
    requires { (ProofRoom proof.now shape) × (1 ≤ shape.n) × (i < shape.k) }
    ensures { result ≡ key_of (v_of proof.now shape i) }
{
    key_from(proof, row_place(shape, i), shape.n)
}

// The key of row i's second point.
pub fn w_key(proof: &[u8], shape: Shape, i: usize) -> u64
    requires { (ProofRoom proof.now shape) × (1 ≤ shape.n) × (i < shape.k) }
    ensures { result ≡ key_of (w_of proof.now shape i) }
{
    key_from(proof, row_place(shape, i) + shape.n, shape.n)
}

// Where the triple of row i begins.
pub fn triple_place(shape: Shape, i: usize) -> usize
    requires { (shape.n ≤ most_variables) × (shape.k ≤ most_rows) × (i < shape.k) }
    ensures { (result ≡ triple_at shape i) × (result ≤ 7164) }
{
    place_of(place_of(8, shape.k, 2 * shape.n), i, 12)
}

// The triple of row i.
pub fn row_triple(proof: &[u8], shape: Shape, i: usize) -> Triple
    requires { (ProofRoom proof.now shape) × (i < shape.k) }
    ensures { result ≡ triple_of proof.now shape i }
{
    let at = triple_place(shape, i);
    Triple {
        p: read_i32(proof, at),
        q: read_i32(proof, at + 4),
        r: read_i32(proof, at + 8),
    }
}

// The weights that a triple gives a lone row, or a pair.
fn weights_of(lone: bool, x: Triple) -> Weights
    ensures { result ≡ weights_of lone x }
{
    if lone {
        Weights::Lone(x.p)
    } else {
        Weights::Pair(x.p, x.q, x.r)
    }
}

// Row i by value.
#[tactic(auto, using(points::proofs::points::Laws::exponents_of))]
pub fn row_at(proof: &[u8], shape: Shape, i: usize) -> Row
    requires { (ProofRoom proof.now shape) × (i < shape.k) }
    ensures { result ≡ by_value (row_of proof.now shape i) }
{
    let v = row_v(proof, shape, i);
    let w = row_w(proof, shape, i);
    let weights = weights_of(same(v, w), row_triple(proof, shape, i));
    Row { v, w, weights }
}

// The triple that a row's weights are written as.
impl From<Weights> for Triple {
    ghost from_gives = { λ a x. x ≡ triple_for a };

    fn from(weights: Weights) -> Triple {
        match weights {
            Weights::Pair(p, q, r) => Triple { p, q, r },
            Weights::Lone(p) => Triple { p, q: 0, r: 0 },
        }
    }
}
