// Exact powers, monomials and terms, up to the greatest value.
ghost use Rattle.std.specs.Prelude.{◌≡◌, ◌*◌, leb, ◌*ℤ◌};
ghost use Rattle.bounds.specs.Bounds.{greatest_value};
ghost use Rattle.points.specs.Points.{exponents};
ghost use Rattle.monomials.specs.Powers.{power_of, monomial_of, within, saturated, reduced};

use bounds::bounds::GREATEST_VALUE;
use integers::magnitudes::magnitude;
use points::points::Point;

// The number that stands for all whose absolute value is over the greatest. No factor but zero brings it down again.
const SATURATED: i64 = 9223372036854775807;

// The square root of the greatest value.
const ROOT: u64 = 268435456;

// Whether the product of two absolute values is at most the greatest value. Most are told without a division, by the
// multiple of ROOT next above n.
#[tactic(auto, using(crate::proofs::powers::Steps::fit))]
fn fits(m: u64, n: u64) -> bool
    ensures { result ≡ leb (m * n) greatest_value }
{
    // one expression with the tests below was tried and is slower
    if m < ROOT && m * (n / ROOT + 1) <= ROOT {
        return true;
    }
    m == 0 || n <= GREATEST_VALUE / m
}

// The product of two numbers.
fn product(x: i64, y: i64) -> i64
    ensures { result ≡ saturated (x *ℤ y) }
{
    if fits(magnitude(x), magnitude(y)) {
        return x * y;
    }
    SATURATED
}

// The power with exponent 0 is one; otherwise it is the base times the power with exponent one less.
fn power(base: i64, e: u8) -> i64
    ensures { result ≡ saturated (power_of base e) }
{
    if e == 0 {
        return 1;
    }
    product(base, power(base, e - 1))
}

// An exponent of the same power, so that 0, 1 and −1 are multiplied at most twice: their powers go by parity.
#[tactic(auto, using(crate::proofs::powers::Steps::reduces))]
fn reduced(base: i64, e: u8) -> u8
    ensures { result ≡ reduced base e }
{
    if e < 3 || 1 < magnitude(base) {
        return e;
    }
    2 - e % 2
}

// The monomial at the offsets, from the last variable to the first.
#[tactic(auto, using(crate::proofs::powers::Steps::last_product))]
fn monomial(p: Point, offsets: &[i32]) -> i64
    ensures { result ≡ saturated (monomial_of offsets.now (exponents p)) }
{
    let e = p.exponents();
    let mut value = 1;
    for i in (0..e.len().min(offsets.len())).rev() {
        let x = i64::from(offsets[i]);
        value = product(power(x, reduced(x, e[i])), value);
    }
    value
}

// The number, where its absolute value is not over the greatest.
#[tactic(auto, unfolding(crate::specs::Powers::within))]
fn within(x: i64) -> Option<i64>
    ensures { result ≡ within x }
{
    (magnitude(x) <= GREATEST_VALUE).then_some(x)
}

// A coefficient times the monomial at the offsets.
pub fn term(coefficient: i64, p: Point, offsets: &[i32]) -> Option<i64>
    ensures { result ≡ within (coefficient *ℤ monomial_of offsets.now (exponents p)) }
{
    within(product(coefficient, monomial(p, offsets)))
}
