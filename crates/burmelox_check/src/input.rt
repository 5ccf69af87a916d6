// The input's two sheets: where the claim ends and the proof begins.
ghost use Rattle.std.specs.Prelude.{◌≡◌, ◌≤◌, length};
ghost use Rattle.burmelox_check.specs.Input.{claim_end};

use claims::claim_checks::header_wrong;
use sheets::claim_sheet::term_count;
use sheets::layout::{place_of, variables};

// Where the claim ends: as long as its header says, or with the input where 1 or 2 refuse it or it is too short.
pub(crate) fn claim_end(input: &[u8]) -> usize
    ensures { (result ≡ claim_end input.now) × (result ≤ length input.now) }
{
    if input.len() < 8 {
        return input.len();
    }
    if header_wrong(input) {
        return input.len();
    }
    place_of(8, term_count(input), variables(input) + 4).min(input.len())
}
