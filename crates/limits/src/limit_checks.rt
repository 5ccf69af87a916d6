// Checks of the limits sheet: refusals 24 and 25.
ghost use Rattle.std.specs.Prelude.{◌≡◌, not, false, ◌↔◌, ◌≤◌};
ghost use Rattle.bounds.specs.Bounds.{most_variables};
ghost use Rattle.answers.specs.Answers.{told};
ghost use Rattle.sheets.specs.Layout.{LimitsRoom};
ghost use Rattle.limits.specs.LimitChecks.{limits_shaped, RightLimit, limit_right, limits_answer};

use crate::limits_sheet::limit_at;
use answers::answers::Sheet;
use answers::searches::first_at;
use bounds::bounds::{GREATEST_LIMIT, GREATEST_MULTIPLIER};
use sheets::layout::place_of;
use squares::limits::Limit;

// 24: whether the length is wrong, or n is not the claim's.
#[tactic(auto, unfolding(crate::specs::LimitChecks::limits_shaped))]
fn shape_wrong(limits: &[u8], n: usize) -> bool
    requires { n ≤ most_variables }
    ensures { result ≡ not (limits_shaped n limits.now) }
{
    limits.len() != place_of(1, n, 7) || usize::from(limits[0]) != n
}

// Whether a power, L and m are as said.
#[tactic(auto, unfolding(crate::specs::LimitChecks::power_right, crate::specs::LimitChecks::limit_right))]
fn limit_right(limit: Limit) -> bool
    ensures { result ≡ limit_right limit }
{
    if limit.power == 0 {
        return limit.bound == 0 && limit.multiplier == 0;
    }
    (limit.power == 2 || limit.power == 4)
        && 1 <= limit.bound
        && limit.bound <= GREATEST_LIMIT
        && limit.multiplier <= GREATEST_MULTIPLIER
}

// 25: whether one of them is not.
#[tactic(auto, using(crate::proofs::limit_checks::Laws::limit_says))]
fn limit_wrong(limit: Limit) -> bool
    ensures test { result ≡ not (limit_right limit) }
    ensures says { (result ≡ false) ↔ RightLimit limit }
{
    !limit_right(limit)
}

// The checks 24 and 25, where n is the claim's.
#[tactic(auto, using(crate::proofs::limit_checks::Laws::shaped_room), unfolding(crate::specs::LimitChecks::limit_breaks, crate::specs::LimitChecks::limits_answer))]
pub fn check_limits(limits: &[u8], n: usize) -> Result<(), Sheet>
    requires { n ≤ most_variables }
    ensures { told result ≡ limits_answer n limits.now }
{
    if shape_wrong(limits, n) {
        return Err(Sheet::Limits(24, 0));
    }
    if let Some(i) = first_at(n, |i| limit_wrong(limit_at(limits, n, i))) {
        return Err(Sheet::Limits(25, i));
    }
    Ok(())
}
