// Points by value: their exponents, pure powers, order, midpoint and sign.
ghost use Rattle.std.specs.Prelude.{◌≡◌, true, ◌↔◌, ◌+◌, ◌<◌, ◌≤◌, length};
ghost use Rattle.std.specs.List.{list_all, zip};
ghost use Rattle.bounds.specs.Bounds.{most_variables};
ghost use Rattle.points.specs.Points.{exponents, point_of, bytes_at, same_point, rises_to, has_midpoint, even_sum, midpoint_of, OddsMasked, keeps_sign, pure_at, exponents_within};

use bounds::bounds::MOST_VARIABLES;

// The exponents of n variables, in the first n places. Where n is over the number of places, all of them count.
#[derive(Clone, Copy)]
pub struct Point {
    pub exps: [u8; MOST_VARIABLES],
    pub n: usize,
}

impl Point {
    // How many exponents count.
    #[tactic(auto, using(crate::proofs::points::Steps::exponents_length))]
    pub fn variables(self) -> usize
        ensures { (result ≡ length (exponents self)) × (result ≤ most_variables) }
    {
        self.n.min(MOST_VARIABLES)
    }

    // The exponents that count.
    #[tactic(auto, using(crate::proofs::points::Laws::exponents_counted))]
    pub fn exponents(&self) -> &[u8]
        ensures { (result.now ≡ exponents self.now) × (length result.now ≤ most_variables) }
    {
        &self.exps[..self.variables()]
    }
}

// The point whose n exponents are the bytes from a place on.
#[tactic(auto, using(crate::proofs::points::Steps::copied))]
pub fn point_at(s: &[u8], at: usize, n: usize) -> Point
    requires { (n ≤ most_variables) × (at + n ≤ length s.now) }
    ensures { result ≡ point_of (bytes_at s.now at n) }
{
    let mut exps = [0u8; MOST_VARIABLES];
    exps[..n].copy_from_slice(&s[at..at + n]);
    Point { exps, n }
}

// The point of a pure power: exponent e at variable i of n, and 0 at the others.
#[tactic(auto, using(crate::proofs::points::Laws::pure_point))]
pub fn pure_power(n: usize, i: usize, e: u8) -> Point
    requires { (i < n) × (n ≤ most_variables) }
    ensures { result ≡ point_of (pure_at n i e) }
{
    let mut exps = [0u8; MOST_VARIABLES];
    exps[i] = e;
    Point { exps, n }
}

// Whether two points have the same exponents.
#[tactic(auto, unfolding(crate::specs::Points::same_point))]
pub fn same(a: Point, b: Point) -> bool
    ensures { result ≡ same_point (exponents a) (exponents b) }
{
    a.exponents() == b.exponents()
}

// Whether every sum of two exponents at one place is even, as far as both go.
#[tactic(auto, unfolding(crate::specs::Points::even_sum))]
fn even_sums(x: &[u8], y: &[u8]) -> bool
    ensures { result ≡ list_all (λ p. even_sum p.0 p.1) (zip x.now y.now) }
{
    x.iter()
        .zip(y)
        .all(|(d, e)| (*d as u16 + *e as u16) % 2 == 0)
}

// Whether two points have as many variables, and every sum of two exponents of one variable is even.
#[tactic(auto, using(crate::proofs::points::Steps::whole))]
pub fn has_midpoint(a: Point, b: Point) -> bool
    ensures { result ≡ has_midpoint (exponents a) (exponents b) }
{
    a.variables() == b.variables() && even_sums(a.exponents(), b.exponents())
}

// Whether no exponent is over the limit.
#[tactic(auto, unfolding(crate::specs::Points::exponents_within))]
pub fn exponents_within(p: Point, limit: u8) -> bool
    ensures { result ≡ exponents_within limit (exponents p) }
{
    p.exponents().iter().all(|e| *e <= limit)
}

// Whether every odd exponent belongs to a variable of the mask, whose lowest bit is the first variable's.
#[tactic(auto, using(crate::proofs::points::Steps::signs))]
pub fn keeps_sign(p: Point, mask: u8) -> bool
    ensures test { result ≡ keeps_sign mask (exponents p) }
    ensures says { (result ≡ true) ↔ OddsMasked mask (exponents p) }
{
    let mut rest = mask;
    for e in p.exponents() {
        if rest % 2 < *e % 2 {
            return false;
        }
        rest /= 2;
    }
    true
}

// Whether b is above a, compared by the first variable first, as far as both go.
#[tactic(auto, using(crate::proofs::points::Steps::cut_rises))]
pub fn rises(a: Point, b: Point) -> bool
    ensures { result ≡ rises_to (exponents a) (exponents b) }
{
    let (x, y) = (a.exponents(), b.exponents());
    let n = x.len().min(y.len());
    x[..n].cmp(&y[..n]).is_lt()
}

// The point with half the sum of each two exponents, rounded down.
#[tactic(auto, using(crate::proofs::points::Steps::halves))]
pub fn midpoint(a: Point, b: Point) -> Point
    ensures { result ≡ point_of (midpoint_of (exponents a) (exponents b)) }
{
    let (x, y) = (a.exponents(), b.exponents());
    let n = x.len().min(y.len());
    let mut exps = [0u8; MOST_VARIABLES];
    for i in 0..n {
        exps[i] = x[i].midpoint(y[i]);
    }
    Point { exps, n }
}
