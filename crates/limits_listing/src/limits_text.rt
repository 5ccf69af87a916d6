// The text of a limits sheet: its variables, and a line for each limited variable.
ghost use Rattle.std.specs.Prelude.{◌≡◌, length};
ghost use Rattle.answers.specs.Answers.{says, Passes};
ghost use Rattle.text.specs.Text.{Room, Written};
ghost use Rattle.listings.specs.Fields.{fields_text, listing};
ghost use Rattle.listings.specs.Listings.{listing_answer, listing_after, ListingPromises};
ghost use Rattle.limits_listing.specs.OwnChecks.{own_answer};
ghost use Rattle.limits_listing.specs.LimitsText.{longest, line_fields, variable_fields, limits_fields, FormedLimits};

use crate::own_checks::{check_own, own_variables};
use answers::answers::Verdict;
use bounds::bounds::MOST_VARIABLES;
use limits::limits_sheet::limit_at;
use listings::handing::listed;
use squares::limits::Limit;
use text::text::{counted, put_byte};

// The longest text: 19 bytes, and 47 for each variable.
const LONGEST: usize = 19 + 47 * MOST_VARIABLES;

// The line of variable i, which is limited.
fn line_text(limit: Limit, i: usize, out: &mut [u8], from: usize) -> usize
    requires { Room out.old from (fields_text (line_fields i limit)) }
    ensures { Written out.old from (fields_text (line_fields i limit)) out.new result }
{
    let index = counted(b"\nvariable ", i as u64, out, from);
    let p = counted(b" power ", limit.power as u64, out, index);
    let b = counted(b" limit ", limit.bound as u64, out, p);
    counted(b" multiplier ", limit.multiplier as u64, out, b)
}

// The line of variable i, or nothing where it is unlimited.
fn variable_text(limit: Limit, i: usize, out: &mut [u8], from: usize) -> usize
    requires { Room out.old from (fields_text (variable_fields i limit)) }
    ensures { Written out.old from (fields_text (variable_fields i limit)) out.new result }
{
    if limit.power == 0 {
        return from;
    }
    line_text(limit, i, out, from)
}

// The whole text of a limits sheet that passes its own checks; the answer is where it ends.
fn whole_text(limits: &[u8], out: &mut [u8]) -> usize
    requires { (Passes (own_answer limits.now)) × (length out.old ≡ longest) }
    ensures { Written out.old 0 (listing (limits_fields limits.now)) out.new
        result }
{
    let n = own_variables(limits);
    let mut end = counted(b"limits\nvariables ", n as u64, out, 0);
    for i in 0..n {
        end = variable_text(limit_at(limits, n, i), i, out, end);
    }
    put_byte(b'\n', out, end)
}

// The text of a limits sheet at the start of a buffer, and its length; what does not pass 24 and 25 is refused by
// these, and a buffer that is shorter than the text by 30.
pub fn limits_text(limits: &[u8], buffer: &mut [u8]) -> Verdict
    ensures verdict { says result ≡ listing_answer (own_answer limits.now)
        (limits_fields limits.now) (length buffer.old) }
    ensures written { buffer.new ≡ listing_after (own_answer limits.now)
        (limits_fields limits.now) buffer.old }
    ensures promises { ListingPromises FormedLimits limits_fields limits.now buffer.old
        (Passes (says result)) (says result).value buffer.new }
{
    let checked = check_own(limits);
    listed::<LONGEST, _>(checked, |text: &mut [u8]| whole_text(limits, text), buffer).into()
}
