// The search for the highest floor that a proof carries, from hi down to lo.
ghost use Rattle.std.specs.Prelude.{◌≡◌, false, ◌≤◌, nat_abs, length, ◌<◌, IfSome};
ghost use Rattle.bounds.specs.Bounds.{greatest_weight, greatest_span};
ghost use Rattle.answers.specs.Answers.{refused};
ghost use Rattle.answers.specs.Searches.{first};
ghost use Rattle.floors.specs.Search.{range_wrong, floor_count, told_after, aim_after, Searchable, passes_after, output_after, found, refusal, tells, search_of, search_output};
ghost use Rattle.floors.specs.Promises.{SearchPromises};

use crate::trials::{first_failing, rotate, test_count};
use answers::answers::Sheet;
use bounds::bounds::{GREATEST_SPAN, GREATEST_WEIGHT, is_beyond};
use bounds::profiles::Profile;
use checks::input::check_input;
use rows::proof_sheet::row_count;
use targets::targets::{Aim, aim_of, at_floor};
use weighing::exact::write_exact;

// The highest floor that is accepted, how many floors were tried and the number of rows.
#[derive(Clone, Copy)]
pub struct Highest {
    pub floor: i64,
    pub tried: u32,
    pub rows: usize,
}

// 22: whether lo is over hi, either is beyond the greatest weight, or they are too far apart.
#[tactic(auto, using(crate::proofs::search::Laws::span_tested), unfolding(crate::specs::Search::range_wrong))]
fn range_wrong(lo: i64, hi: i64) -> bool
    ensures { result ≡ range_wrong lo hi }
{
    hi < lo
        || is_beyond(lo, GREATEST_WEIGHT)
        || is_beyond(hi, GREATEST_WEIGHT)
        || GREATEST_SPAN < hi.abs_diff(lo)
}

// How many floors there are from lo to hi.
#[tactic(auto, using(crate::proofs::search::Laws::range_few), unfolding(crate::specs::Search::floor_count))]
fn floor_count(lo: i64, hi: i64) -> usize
    requires { range_wrong lo hi ≡ false }
    ensures { result ≡ floor_count lo hi }
{
    hi.abs_diff(lo) as usize + 1
}

// What is tried after i floors: the floor that many below hi.
#[tactic(auto, unfolding(crate::specs::Search::floor_after, crate::specs::Search::aim_after))]
fn aim_after(aim: Aim, hi: i64, i: usize) -> Aim
    requires { (nat_abs hi ≤ greatest_weight) × (i ≤ greatest_span) }
    ensures { result ≡ aim_after aim hi i }
{
    at_floor(aim, hi - i as i64)
}

// How many floors fail before the first that passes 16 to 19. Each is tried first by the test that refused the one
// before; that test mostly refuses it too, and no answer depends on which it was. The limit, here and below, is that
// of 17.
#[tactic(auto, using(crate::proofs::search::Steps::tests_some, crate::proofs::search::Steps::walk_stop), unfolding(answers::specs::Searches::first))]
fn walk(claim: &[u8], proof: &[u8], aim: Aim, limit: u64, lo: i64, hi: i64) -> Option<usize>
    requires { Searchable limit claim.now proof.now aim lo hi }
    ensures first { result ≡ first (passes_after limit claim.now proof.now aim hi) (floor_count lo hi) }
    ensures below { IfSome result (λ i. i < floor_count lo hi) }
{
    let tests = test_count(claim, proof);
    let mut last = 0;
    for i in 0..floor_count(lo, hi) {
        let Some(j) = first_failing(claim, proof, aim_after(aim, hi, i), limit, tests, last) else {
            return Some(i);
        };
        last = rotate(tests, last, j);
    }
    None
}

// The search of checked sheets, by 16 to 19 alone.
#[tactic(auto, unfolding(answers::specs::Answers::refused, crate::specs::Search::tells, crate::specs::Search::told_after, crate::specs::Search::output_after, crate::specs::Search::aim_after))]
fn search_checked(
    claim: &[u8],
    proof: &[u8],
    own: Aim,
    limit: u64,
    lo: i64,
    hi: i64,
    output: &mut [u8],
) -> Result<Highest, Sheet>
    requires { (Searchable limit claim.now proof.now own lo hi) × (length proof.now ≤ length output.old) }
    ensures told { tells result ≡ told_after proof.now hi
        (first (passes_after limit claim.now proof.now own hi) (floor_count lo hi)) }
    ensures written { output.new
        ≡ output_after claim.now proof.now own hi output.old
        (first (passes_after limit claim.now proof.now own hi) (floor_count lo hi)) }
{
    let Some(i) = walk(claim, proof, own, limit, lo, hi) else {
        return Err(Sheet::Range(23, 0));
    };
    let aim = aim_after(own, hi, i);
    write_exact(claim, proof, aim, output);
    Ok(Highest {
        floor: aim.floor,
        tried: i as u32 + 1,
        rows: row_count(proof),
    })
}

// Searches for the highest floor from hi down to lo whose check is accepted, and writes that floor's exact proof into
// the output as its check does; a refusal writes nothing.
pub fn search(
    claim: &[u8],
    proof: &[u8],
    limits: &[u8],
    profile: Profile,
    lo: i64,
    hi: i64,
    output: &mut [u8],
) -> Result<Highest, Sheet>
    ensures answer { tells result ≡ search_of claim.now proof.now limits.now profile
        lo hi (length output.old) }
    ensures written { output.new ≡ search_output claim.now proof.now
        limits.now profile lo hi output.old }
    ensures promises { SearchPromises claim.now proof.now limits.now profile
        lo hi output.old (λ b tried k. tells result ≡ found b tried k) (tells result ≡ refusal (refused 23 0))
        output.new }
{
    check_input(claim, proof, limits, profile, output.len())?;
    if range_wrong(lo, hi) {
        return Err(Sheet::Range(22, 0));
    }
    let own = aim_of(claim, proof, limits);
    search_checked(claim, proof, own, profile.weight as u64, lo, hi, output)
}
