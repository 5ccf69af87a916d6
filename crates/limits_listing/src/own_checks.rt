// The checks of a limits sheet by itself, 24 and 25, and of a profile, 27.
ghost use Rattle.std.specs.Prelude.{◌≡◌};
ghost use Rattle.answers.specs.Answers.{told};
ghost use Rattle.sheets.specs.Layout.{variables};
ghost use Rattle.limits_listing.specs.OwnChecks.{own_answer, profile_answer};

use answers::answers::Sheet;
use bounds::profiles::{Profile, profile_wrong};
use limits::limit_checks::check_limits;
use listings::variables::variables_wrong;

// The number of variables of a limits sheet; one without a byte has none.
pub fn own_variables(limits: &[u8]) -> usize
    ensures { result ≡ variables limits.now }
{
    limits.first().map_or(0, |n| usize::from(*n))
}

// The checks 24 and 25, with the sheet's own number of variables.
#[tactic(auto, using(listings::proofs::variables::Laws::right_variables), unfolding(crate::specs::OwnChecks::own_answer))]
pub fn check_own(limits: &[u8]) -> Result<(), Sheet>
    ensures { told result ≡ own_answer limits.now }
{
    let n = own_variables(limits);
    if variables_wrong(n) {
        return Err(Sheet::Limits(24, 0));
    }
    check_limits(limits, n)
}

// The check 27.
#[tactic(auto, unfolding(crate::specs::OwnChecks::profile_answer))]
pub fn check_profile(profile: Profile) -> Result<(), Sheet>
    ensures { told result ≡ profile_answer profile }
{
    if profile_wrong(profile) {
        return Err(Sheet::Profile(27, 0));
    }
    Ok(())
}
