// The limits sheet's fields.
ghost use Rattle.std.specs.Prelude.{◌≡◌, ◌<◌, ◌≤◌};
ghost use Rattle.bounds.specs.Bounds.{most_variables};
ghost use Rattle.sheets.specs.Layout.{LimitsRoom};
ghost use Rattle.limits.specs.LimitsSheet.{limit_of, limits_of, limit_in};

use bounds::bounds::MOST_VARIABLES;
use integers::words::{read_u16, read_u32};
use sheets::layout::place_of;
use squares::limits::Limit;

// The limits of all variables, none after the last.
#[derive(Clone, Copy)]
pub struct Limits {
    pub each: [Limit; MOST_VARIABLES],
}

// The limit of variable i, as the sheet has it.
pub fn limit_at(limits: &[u8], n: usize, i: usize) -> Limit
    requires { (LimitsRoom limits.now n) × (i < n) }
    ensures { result ≡ limit_of limits.now n i }
{
    let at = place_of(1, i, 3);
    Limit {
        power: limits[at],
        bound: read_u16(limits, at + 1) as u16,
        multiplier: read_u32(limits, place_of(place_of(1, n, 3), i, 4)) as u32,
    }
}

// The limits of all variables, by value.
#[tactic(auto, using(crate::proofs::limits_sheet::Steps::filling), unfolding(crate::specs::LimitsSheet::limits_of))]
pub fn limits_of(limits: &[u8], n: usize) -> Limits
    requires { LimitsRoom limits.now n }
    ensures { result ≡ limits_of limits.now n }
{
    let mut each = [Limit::default(); MOST_VARIABLES];
    for i in 0..n {
        each[i] = limit_at(limits, n, i);
    }
    Limits { each }
}

// The limit of variable i, of the limits by value.
pub fn limit_in(limits: Limits, i: usize) -> Limit
    requires { i < most_variables }
    ensures { result ≡ limit_in limits i }
{
    limits.each[i]
}
