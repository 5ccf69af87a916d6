// The trial of one floor: the tests of 16 to 19 in cyclic order, begun at any of them.
ghost use Rattle.std.specs.Prelude.{◌≡◌, ◌<◌, ◌≤◌, length, IfSome};
ghost use Rattle.bounds.specs.Bounds.{greatest_weight};
ghost use Rattle.answers.specs.Searches.{first};
ghost use Rattle.sharing.specs.Shifts.{CheckedSheets};
ghost use Rattle.floors.specs.Trials.{test_count, fails, rotated, fails_from};

use answers::searches::first_at;
use judgements::judgements::holds;
use rows::proof_sheet::row_count;
use targets::targets::Aim;
use weighing::unheld::{is_unheld, point_count};
use weighing::weighed::judge_row;

// How many tests there are: one for each point of check 16, and one for each row.
#[tactic(auto, unfolding(crate::specs::Trials::test_count))]
pub(crate) fn test_count(claim: &[u8], proof: &[u8]) -> usize
    requires { (8 ≤ length claim.now) × (8 ≤ length proof.now) }
    ensures { result ≡ test_count claim.now proof.now }
{
    point_count(claim) + row_count(proof)
}

// Whether test i fails: a point that is unheld, or a row that does not hold; the limit, here and below, is that of 17.
#[tactic(auto, using(judgements::proofs::judgements::Laws::holds_judged_as), unfolding(crate::specs::Trials::test_count, crate::specs::Trials::fails))]
fn fails(claim: &[u8], proof: &[u8], aim: Aim, limit: u64, i: usize) -> bool
    requires { (CheckedSheets claim.now proof.now aim) × (limit ≤ greatest_weight)
        × (i < test_count claim.now proof.now) }
    ensures { result ≡ fails limit claim.now proof.now aim i }
{
    let points = point_count(claim);
    if i < points {
        is_unheld(claim, proof, aim, i)
    } else {
        !holds(judge_row(claim, proof, aim, limit, i - points))
    }
}

// The i-th test from one on; after the last comes the first. No `%`, which would divide once for each test.
#[tactic(auto, unfolding(crate::specs::Trials::rotated))]
pub(crate) fn rotate(tests: usize, from: usize, i: usize) -> usize
    requires { (tests ≤ 65536) × (from < tests) × (i < tests) }
    ensures { (result ≡ rotated tests from i) × (result < tests) }
{
    let at = from + i;
    if at < tests { at } else { at - tests }
}

// How many tests pass, from one on, before the first that fails.
#[tactic(auto, using(crate::proofs::trials::Laws::tests_few), unfolding(crate::specs::Trials::fails_from))]
pub(crate) fn first_failing(
    claim: &[u8],
    proof: &[u8],
    aim: Aim,
    limit: u64,
    tests: usize,
    from: usize,
) -> Option<usize>
    requires { (CheckedSheets claim.now proof.now aim) × (limit ≤ greatest_weight)
        × (tests ≡ test_count claim.now proof.now) × (from < tests) }
    ensures first { result ≡ first (fails_from limit claim.now proof.now aim from) tests }
    ensures below { IfSome result (λ j. j < tests) }
{
    first_at(
        tests,
        |i| fails(claim, proof, aim, limit, rotate(tests, from, i)),
    )
}
