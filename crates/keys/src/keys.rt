// Keys: the exponents of a point as one number, so that two points are compared at once.
ghost use Rattle.std.specs.Prelude.{◌≡◌, ◌+◌, ◌≤◌, length};
ghost use Rattle.bounds.specs.Bounds.{most_variables};
ghost use Rattle.points.specs.Points.{exponents, bytes_at};
ghost use Rattle.keys.specs.Keys.{key_of};

use bounds::bounds::MOST_VARIABLES;
use points::points::Point;

// The key of eight bytes.
#[tactic(auto, using(crate::proofs::keys::Steps::eight_key))]
fn eight_at(s: &[u8], at: usize) -> u64
    requires { at + 8 ≤ length s.now }
    ensures { result ≡ key_of (bytes_at s.now at 8) }
{
    u64::from_le_bytes(s[at..at + 8].try_into().unwrap())
}

// The key of the n bytes from a place on: they are the lowest of the eight that begin there.
#[tactic(auto, using(crate::proofs::keys::Steps::key_masked))]
pub fn key_from(s: &[u8], at: usize, n: usize) -> u64
    requires { (1 ≤ n) × (n ≤ most_variables) × (at + 8 ≤ length s.now) }
    ensures { result ≡ key_of (bytes_at s.now at n) }
{
    eight_at(s, at) & (u64::MAX >> (64 - 8 * n))
}

// The key of a point: the places that do not count are zeros in it.
#[tactic(auto, using(crate::proofs::keys::Steps::key_padded))]
pub fn key_of(p: Point) -> u64
    ensures { result ≡ key_of (exponents p) }
{
    let mut places = [0u8; MOST_VARIABLES];
    places[..p.variables()].copy_from_slice(p.exponents());
    u64::from_le_bytes(places)
}
