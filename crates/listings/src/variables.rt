// How many variables a sheet has that stands by itself.
ghost use Rattle.std.specs.Prelude.{◌≡◌, not};
ghost use Rattle.listings.specs.Variables.{variables_right};

use bounds::bounds::MOST_VARIABLES;

// 9 and 24: whether a sheet without a claim beside it has no number of variables that a claim may have.
#[tactic(auto, unfolding(crate::specs::Variables::variables_right))]
pub fn variables_wrong(n: usize) -> bool
    ensures { result ≡ not (variables_right n) }
{
    !(1..=MOST_VARIABLES).contains(&n)
}
