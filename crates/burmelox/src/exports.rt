// The exported functions.
ghost use Rattle.std.specs.Prelude.{◌≡◌, length};
ghost use Rattle.answers.specs.Answers.{says, Short};
ghost use Rattle.judging.specs.Check.{check_answer, output_of};
ghost use Rattle.judging.specs.Promises.{LongEnough, CheckPromises};
ghost use Rattle.evaluation.specs.Evaluations.{evaluation_answer, evaluation_of};
ghost use Rattle.evaluation.specs.Promises.{EvaluationPromises};
ghost use Rattle.floors.specs.Search.{answer_of, search_of, search_output};
ghost use Rattle.floors.specs.Promises.{SearchPromises};
ghost use Rattle.paging.specs.PageCheck.{page_answer, page_output, page_after};
ghost use Rattle.paging.specs.Promises.{PagePromises};
ghost use Rattle.burmelox.specs.Exports.{number_in, code_of, Accepted, Coded, told_value, Stores, told_floor, told_tried, Finds, Leaves};

use answers::answers::{Verdict, numbers_of};
use bounds::profiles::Profile;
use evaluation::evaluations::evaluate;
use floors::search::search;
use judging::check::check;
use paging::page_check::page_check;

// What a refusal's sheet and number are multiplied by.
const SHEET_UNIT: u64 = 4294967296;

const NUMBER_UNIT: u64 = 65536;

// k for an acceptance, sheet × 2^32 + number × 2^16 + index for a refusal.
pub(crate) fn code(verdict: Verdict) -> u64
    requires { Short 65536 (says verdict) }
    ensures { result ≡ code_of (says verdict) }
{
    let said = numbers_of(verdict);
    said.sheet as u64 * SHEET_UNIT + said.number as u64 * NUMBER_UNIT + said.value as u64
}

// Checks a claim and its proof within limits, under a site's profile, and writes the exact proof into the output where
// they are accepted.
#[unsafe(no_mangle)]
pub extern "C" fn burmelox_check(
    claim: &[u8],
    proof: &[u8],
    limits: &[u8],
    profile: Profile,
    output: &mut [u8],
) -> u64
    ensures code { result ≡ code_of (check_answer claim.now proof.now limits.now
        profile (length output.old)) }
    ensures answer { Coded (check_answer claim.now proof.now limits.now
        profile (length output.old)) result }
    ensures written { output.new
        ≡ output_of claim.now proof.now limits.now profile output.old }
    ensures promises { CheckPromises claim.now proof.now limits.now profile
        output.old (LongEnough proof.now output.old) (Accepted result) result
        output.new }
{
    code(check(claim, proof, limits, profile, output))
}

// The same with a page of 2,920 bytes for the verdict, which every refusal writes but that of a page of another length.
#[unsafe(no_mangle)]
pub extern "C" fn burmelox_check_page(
    claim: &[u8],
    proof: &[u8],
    limits: &[u8],
    profile: Profile,
    output: &mut [u8],
    page: &mut [u8],
) -> u64
    ensures code { result ≡ code_of (page_answer claim.now proof.now limits.now profile
        (length output.old) (length page.old)) }
    ensures answer { Coded (page_answer claim.now proof.now limits.now profile
        (length output.old) (length page.old)) result }
    ensures written { output.new ≡ page_output claim.now proof.now
        limits.now profile output.old (length page.old) }
    ensures page { page.new ≡ page_after claim.now proof.now
        limits.now profile (length output.old) page.old }
    ensures promises { PagePromises claim.now proof.now limits.now profile
        output.old page.old (Accepted result) result output.new page.new }
{
    code(page_check(claim, proof, limits, profile, output, page))
}

// Evaluates a claim's polynomial: 0 and the value, or the refusal's code and the value as it was.
#[unsafe(no_mangle)]
pub extern "C" fn burmelox_evaluate(
    claim: &[u8],
    profile: Profile,
    offsets: &[i32],
    value: &mut i64,
) -> u64
    ensures code { result ≡ code_of (evaluation_answer claim.now profile offsets.now) }
    ensures answer { Coded (evaluation_answer claim.now profile offsets.now) result }
    ensures written { value.new
        ≡ told_value (evaluation_of claim.now profile offsets.now) value.old }
    ensures kept { Leaves (result ≡ 0) value.old value.new }
    ensures promises { EvaluationPromises claim.now profile offsets.now
        (Stores result value.new) }
{
    match evaluate(claim, profile, offsets) {
        Ok(v) => {
            *value = v;
            0
        }
        Err(sheet) => code(Verdict::Refused(sheet)),
    }
}

// Searches for the highest floor from hi down to lo that is accepted within limits, and writes its exact proof into the
// output: the number of rows, the floor and the number of floors tried, or the refusal's code and both as they were.
#[unsafe(no_mangle)]
pub extern "C" fn burmelox_search(
    claim: &[u8],
    proof: &[u8],
    limits: &[u8],
    profile: Profile,
    lo: i64,
    hi: i64,
    output: &mut [u8],
    floor: &mut i64,
    tried: &mut u32,
) -> u64
    ensures code { result ≡ code_of (answer_of (search_of claim.now proof.now
        limits.now profile lo hi (length output.old))) }
    ensures answer { Coded (answer_of (search_of claim.now proof.now
        limits.now profile lo hi (length output.old))) result }
    ensures written { output.new ≡ search_output claim.now proof.now
        limits.now profile lo hi output.old }
    ensures floor { floor.new ≡ told_floor (search_of claim.now proof.now
        limits.now profile lo hi (length output.old)) floor.old }
    ensures tried { tried.new ≡ told_tried (search_of claim.now proof.now
        limits.now profile lo hi (length output.old)) tried.old }
    ensures kept { Leaves (Accepted result) floor.old floor.new
        × Leaves (Accepted result) tried.old tried.new }
    ensures promises { SearchPromises claim.now proof.now limits.now profile
        lo hi output.old (Finds result floor.new tried.new) (number_in result ≡ 23)
        output.new }
{
    match search(claim, proof, limits, profile, lo, hi, output) {
        Ok(highest) => {
            *floor = highest.floor;
            *tried = highest.tried;
            highest.rows as u64
        }
        Err(sheet) => code(Verdict::Refused(sheet)),
    }
}
