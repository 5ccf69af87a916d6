// The exported functions that write the text of a sheet. A refusal writes nothing.
ghost use Rattle.std.specs.Prelude.{◌≡◌, length};
ghost use Rattle.bounds.specs.Profiles.{InRange, full_profile};
ghost use Rattle.claims.specs.ClaimChecks.{claim_answer};
ghost use Rattle.listings.specs.Listings.{listing_answer, listing_after, ListingPromises};
ghost use Rattle.claim_listing.specs.ClaimText.{claim_fields, FormedClaim};
ghost use Rattle.proof_listing.specs.OwnChecks.{own_answer as proofOwn};
ghost use Rattle.proof_listing.specs.ProofText.{proof_fields, FormedProof};
ghost use Rattle.limits_listing.specs.OwnChecks.{own_answer as limitsOwn, profile_answer};
ghost use Rattle.limits_listing.specs.LimitsText.{limits_fields, FormedLimits};
ghost use Rattle.limits_listing.specs.ProfileText.{profile_fields};
ghost use Rattle.burmelox.specs.Exports.{code_of, Accepted, Coded};

use crate::exports::code;
use bounds::profiles::Profile;
use claim_listing::claim_text::claim_text;
use limits_listing::limits_text::limits_text;
use limits_listing::profile_text::profile_text;
use proof_listing::proof_text::proof_text;

// The text of a claim and its length.
#[unsafe(no_mangle)]
pub extern "C" fn burmelox_claim_text(claim: &[u8], text: &mut [u8]) -> u64
    ensures code { result ≡ code_of (listing_answer (claim_answer claim.now full_profile)
        (claim_fields claim.now) (length text.old)) }
    ensures answer { Coded (listing_answer (claim_answer claim.now full_profile)
        (claim_fields claim.now) (length text.old)) result }
    ensures written { text.new ≡ listing_after (claim_answer claim.now full_profile)
        (claim_fields claim.now) text.old }
    ensures promises { ListingPromises FormedClaim claim_fields claim.now text.old
        (Accepted result) result text.new }
{
    code(claim_text(claim, text))
}

// The text of a proof and its length.
#[unsafe(no_mangle)]
pub extern "C" fn burmelox_proof_text(proof: &[u8], text: &mut [u8]) -> u64
    ensures code { result ≡ code_of (listing_answer (proofOwn proof.now)
        (proof_fields proof.now) (length text.old)) }
    ensures answer { Coded (listing_answer (proofOwn proof.now)
        (proof_fields proof.now) (length text.old)) result }
    ensures written { text.new ≡ listing_after (proofOwn proof.now)
        (proof_fields proof.now) text.old }
    ensures promises { ListingPromises FormedProof proof_fields proof.now text.old
        (Accepted result) result text.new }
{
    code(proof_text(proof, text))
}

// The text of a limits sheet and its length.
#[unsafe(no_mangle)]
pub extern "C" fn burmelox_limits_text(limits: &[u8], text: &mut [u8]) -> u64
    ensures code { result ≡ code_of (listing_answer (limitsOwn limits.now)
        (limits_fields limits.now) (length text.old)) }
    ensures answer { Coded (listing_answer (limitsOwn limits.now)
        (limits_fields limits.now) (length text.old)) result }
    ensures written { text.new ≡ listing_after (limitsOwn limits.now)
        (limits_fields limits.now) text.old }
    ensures promises { ListingPromises FormedLimits limits_fields limits.now text.old
        (Accepted result) result text.new }
{
    code(limits_text(limits, text))
}

// The text of a profile and its length.
#[unsafe(no_mangle)]
pub extern "C" fn burmelox_profile_text(profile: Profile, text: &mut [u8]) -> u64
    ensures code { result ≡ code_of (listing_answer (profile_answer profile) (profile_fields profile)
        (length text.old)) }
    ensures answer { Coded (listing_answer (profile_answer profile) (profile_fields profile)
        (length text.old)) result }
    ensures written { text.new ≡ listing_after (profile_answer profile) (profile_fields profile)
        text.old }
    ensures promises { ListingPromises InRange profile_fields profile text.old (Accepted result) result
        text.new }
{
    code(profile_text(profile, text))
}
