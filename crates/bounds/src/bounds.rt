// The bounds of documents 01 and 02: `most` for what is counted, `greatest` for sizes. The definitions have the same
// names, and a contract that compares the two is proved only where they agree.
ghost use Rattle.std.specs.Prelude.{◌≡◌};
ghost use Rattle.bounds.specs.Bounds.{beyond};

use integers::magnitudes::magnitude;

pub const MOST_VARIABLES: usize = 8;

pub const MOST_TERMS: usize = 64;

pub const MOST_ROWS: usize = 256;

pub const GREATEST_EXPONENT: u8 = 120;

// of the scale: 2^20
pub const GREATEST_SCALE: u64 = 1048576;

// of the floor, coefficients and weights: 2^30
pub const GREATEST_WEIGHT: u64 = 1073741824;

// of a term's value: 2^56
pub const GREATEST_VALUE: u64 = 72057594037927936;

// of a search, from its lowest to its highest floor
pub const GREATEST_SPAN: u64 = 4095;

// of a variable's limit, and of its multiplier
pub const GREATEST_LIMIT: u16 = 1023;

pub const GREATEST_MULTIPLIER: u32 = 65536;

// Whether a number is beyond ± a limit.
#[tactic(auto, unfolding(crate::specs::Bounds::beyond))]
pub fn is_beyond(x: i64, limit: u64) -> bool
    ensures { result ≡ beyond limit x }
{
    limit < magnitude(x)
}
