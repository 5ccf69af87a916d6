// Profiles: a site's own bounds, within those of documents 01 and 02.
ghost use Rattle.std.specs.Prelude.{◌≡◌, not, false, ◌↔◌};
ghost use Rattle.bounds.specs.Profiles.{in_range, InRange};

use crate::bounds::{GREATEST_EXPONENT, GREATEST_WEIGHT, MOST_ROWS};

// The greatest exponent, the greatest weight and the most rows.
#[repr(C)]
#[derive(Clone, Copy)]
pub struct Profile {
    pub exponent: u32,
    pub weight: u32,
    pub rows: u32,
}

// The full profile: the largest in range.
pub const FULL: Profile = Profile {
    exponent: GREATEST_EXPONENT as u32,
    weight: GREATEST_WEIGHT as u32,
    rows: MOST_ROWS as u32,
};

// The least weight in range.
const LEAST_WEIGHT: u32 = 1;

// 27: whether the exponent, the weight or the rows are out of range.
#[tactic(auto, unfolding(crate::specs::Profiles::in_range))]
pub fn profile_wrong(profile: Profile) -> bool
    ensures test { result ≡ not (in_range profile) }
    ensures says { (result ≡ false) ↔ InRange profile }
{
    u32::from(GREATEST_EXPONENT) < profile.exponent
        || profile.weight < LEAST_WEIGHT
        || GREATEST_WEIGHT < u64::from(profile.weight)
        || MOST_ROWS < profile.rows as usize
}
