// The text of a profile: its exponent, its weight and its rows.
ghost use Rattle.std.specs.Prelude.{◌≡◌, length};
ghost use Rattle.bounds.specs.Profiles.{InRange};
ghost use Rattle.answers.specs.Answers.{says, Passes};
ghost use Rattle.text.specs.Text.{Room, Written};
ghost use Rattle.listings.specs.Fields.{fields_text, listing};
ghost use Rattle.listings.specs.Listings.{listing_answer, listing_after, ListingPromises};
ghost use Rattle.limits_listing.specs.OwnChecks.{profile_answer};
ghost use Rattle.limits_listing.specs.ProfileText.{longest, profile_fields};

use crate::own_checks::check_profile;
use answers::answers::Verdict;
use bounds::profiles::Profile;
use listings::handing::listed;
use text::text::{counted, put_byte};

// The longest text.
const LONGEST: usize = 48;

// The exponent, the weight and the rows.
fn bounds_text(profile: Profile, out: &mut [u8], from: usize) -> usize
    requires { Room out.old from (fields_text (profile_fields profile)) }
    ensures { Written out.old from (fields_text (profile_fields profile)) out.new result }
{
    let e = counted(b"profile\nexponent ", profile.exponent as u64, out, from);
    let w = counted(b"\nweight ", profile.weight as u64, out, e);
    counted(b"\nrows ", profile.rows as u64, out, w)
}

// The whole text of a profile in range; the answer is where it ends.
fn whole_text(profile: Profile, out: &mut [u8]) -> usize
    requires { (Passes (profile_answer profile)) × (length out.old ≡ longest) }
    ensures { Written out.old 0 (listing (profile_fields profile)) out.new result }
{
    let bounds = bounds_text(profile, out, 0);
    put_byte(b'\n', out, bounds)
}

// The text of a profile at the start of a buffer, and its length; one out of range is refused by 27, and a buffer that
// is shorter than the text by 30.
pub fn profile_text(profile: Profile, buffer: &mut [u8]) -> Verdict
    ensures verdict { says result ≡ listing_answer (profile_answer profile) (profile_fields profile)
        (length buffer.old) }
    ensures written { buffer.new ≡ listing_after (profile_answer profile) (profile_fields profile)
        buffer.old }
    ensures promises { ListingPromises InRange profile_fields profile buffer.old (Passes (says result))
        (says result).value buffer.new }
{
    let checked = check_profile(profile);
    listed::<LONGEST, _>(checked, |text: &mut [u8]| whole_text(profile, text), buffer).into()
}
