// The text of a claim: its variables, mask and floor, and a line for each term.
ghost use Rattle.std.specs.Prelude.{◌≡◌, ◌<◌, ◌≤◌, length};
ghost use Rattle.bounds.specs.Profiles.{full_profile};
ghost use Rattle.answers.specs.Answers.{says, Passes};
ghost use Rattle.sheets.specs.Layout.{ClaimRoom};
ghost use Rattle.claims.specs.ClaimChecks.{claim_answer};
ghost use Rattle.text.specs.Text.{Room, Written};
ghost use Rattle.listings.specs.Fields.{fields_text, listing};
ghost use Rattle.listings.specs.Listings.{listing_answer, listing_after, ListingPromises};
ghost use Rattle.claim_listing.specs.ClaimText.{longest, head_fields, term_fields, claim_fields, FormedClaim};

use answers::answers::Verdict;
use bounds::bounds::MOST_TERMS;
use bounds::profiles::FULL;
use claims::claim_checks::check_claim;
use listings::exponents::exponents_text;
use listings::handing::listed;
use sheets::claim_sheet::{coefficient, floor, mask, term_count};
use sheets::layout::{place_of, variables};
use text::text::{counted, numbered, put_byte};

// The longest text: 45 bytes, and 74 for each term.
const LONGEST: usize = 45 + 74 * MOST_TERMS;

// The variables, the mask and the floor.
fn head_text(claim: &[u8], out: &mut [u8], from: usize) -> usize
    requires { (8 ≤ length claim.now) × (Room out.old from (fields_text (head_fields claim.now))) }
    ensures { Written out.old from (fields_text (head_fields claim.now)) out.new
        result }
{
    let n = counted(b"claim\nvariables ", variables(claim) as u64, out, from);
    let m = counted(b"\nmask ", mask(claim) as u64, out, n);
    numbered(b"\nfloor ", floor(claim), out, m)
}

// The line of term i.
fn term_text(claim: &[u8], n: usize, t: usize, i: usize, out: &mut [u8], from: usize) -> usize
    requires { (ClaimRoom claim.now n t) × (1 ≤ n) × (i < t)
        × (Room out.old from (fields_text (term_fields claim.now n t i))) }
    ensures { Written out.old from (fields_text (term_fields claim.now n t i))
        out.new result }
{
    let index = counted(b"\nterm ", i as u64, out, from);
    let c = numbered(b" coefficient ", coefficient(claim, n, t, i), out, index);
    exponents_text(b" exponents", claim, place_of(8, i, n), n, out, c)
}

// The whole text of a claim that passes 1 to 7; the answer is where it ends.
fn whole_text(claim: &[u8], out: &mut [u8]) -> usize
    requires { (Passes (claim_answer claim.now full_profile)) × (length out.old ≡ longest) }
    ensures { Written out.old 0 (listing (claim_fields claim.now)) out.new result }
{
    let n = variables(claim);
    let t = term_count(claim);
    let mut end = head_text(claim, out, 0);
    for i in 0..t {
        end = term_text(claim, n, t, i, out, end);
    }
    put_byte(b'\n', out, end)
}

// The text of a claim at the start of a buffer, and its length; what does not pass 1 to 7 is refused by these, and a
// buffer that is shorter than the text by 30.
pub fn claim_text(claim: &[u8], buffer: &mut [u8]) -> Verdict
    ensures verdict { says result ≡ listing_answer (claim_answer claim.now full_profile)
        (claim_fields claim.now) (length buffer.old) }
    ensures written { buffer.new ≡ listing_after (claim_answer claim.now full_profile)
        (claim_fields claim.now) buffer.old }
    ensures promises { ListingPromises FormedClaim claim_fields claim.now buffer.old
        (Passes (says result)) (says result).value buffer.new }
{
    let checked = check_claim(claim, FULL);
    listed::<LONGEST, _>(checked, |text: &mut [u8]| whole_text(claim, text), buffer).into()
}
