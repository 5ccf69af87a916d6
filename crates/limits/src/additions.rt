// What the limits add to the target at a point, by its key.
ghost use Rattle.std.specs.Prelude.{◌≡◌, ◌*◌, ◌^◌, ◌<◌, ◌≤◌};
ghost use Rattle.bounds.specs.Bounds.{most_variables};
ghost use Rattle.limits.specs.LimitChecks.{IsLimited, RightLimit, RightLimits};
ghost use Rattle.limits.specs.Additions.{limit_adds, limits_add};

use crate::limits_sheet::Limits;
use squares::limits::Limit;

// By how much the constant falls: m × L^power.
#[tactic(auto, using(crate::proofs::additions::Steps::falling))]
fn fall(limit: Limit) -> u64
    requires { IsLimited limit }
    ensures { result ≡ limit.multiplier * limit.bound ^ limit.power }
{
    u64::from(limit.multiplier) * u64::from(limit.bound).pow(u32::from(limit.power))
}

// What the limit of variable i adds: the constant falls, and the pure power rises by m.
#[tactic(auto, using(crate::proofs::additions::Steps::one_limit), unfolding(crate::specs::Additions::limit_adds))]
fn limit_adds(limit: Limit, i: usize, key: u64) -> i64
    requires { (RightLimit limit) × (i < most_variables) }
    ensures { result ≡ limit_adds limit i key }
{
    if limit.power == 0 {
        return 0;
    }
    if key == 0 {
        return -(fall(limit) as i64);
    }
    if key == u64::from(limit.power) << (8 * i) {
        return i64::from(limit.multiplier);
    }
    0
}

// What the limits of n variables add.
#[tactic(auto, using(crate::proofs::additions::Steps::all_limits), unfolding(crate::specs::Additions::limits_add))]
pub fn limits_add(limits: Limits, n: usize, key: u64) -> i64
    requires { (RightLimits limits) × (n ≤ most_variables) }
    ensures { result ≡ limits_add limits key n }
{
    let mut sum = 0;
    for i in 0..n {
        sum += limit_adds(limits.each[i], i, key);
    }
    sum
}
