// The check of a claim and its proof within limits and a profile, with its verdict on a page.
ghost use Rattle.std.specs.Prelude.{◌≡◌, length};
ghost use Rattle.answers.specs.Answers.{says, Passes};
ghost use Rattle.paging.specs.PageCheck.{page_answer, page_output, page_after};
ghost use Rattle.paging.specs.Promises.{PagePromises};

use answers::answers::{Sheet, Verdict};
use bounds::profiles::Profile;
use judging::check::check;
use pages::pages::{PAGE_LENGTH, put_page};

// Checks a claim and its proof within limits, under a site's profile, and lays the verdict out on a page of 2,920
// bytes: a refusal writes the page and nothing else, an acceptance the exact proof too. A page of another length is
// refused and nothing is written.
pub fn page_check(
    claim: &[u8],
    proof: &[u8],
    limits: &[u8],
    profile: Profile,
    output: &mut [u8],
    page: &mut [u8],
) -> Verdict
    ensures verdict { says result ≡ page_answer claim.now proof.now limits.now
        profile (length output.old) (length page.old) }
    ensures written { output.new ≡ page_output claim.now proof.now
        limits.now profile output.old (length page.old) }
    ensures page { page.new ≡ page_after claim.now proof.now
        limits.now profile (length output.old) page.old }
    ensures promises { PagePromises claim.now proof.now limits.now profile
        output.old page.old (Passes (says result)) (says result).value output.new
        page.new }
{
    if page.len() != PAGE_LENGTH {
        return Verdict::Refused(Sheet::Page(26, 0));
    }
    let verdict = check(claim, proof, limits, profile, output);
    put_page(claim, output, verdict, page);
    verdict
}
