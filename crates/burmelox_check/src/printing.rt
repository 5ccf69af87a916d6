// What the program prints for its input.
ghost use Rattle.std.specs.Prelude.{◌≡◌, ◌≤◌, length};
ghost use Rattle.bounds.specs.Profiles.{full_profile};
ghost use Rattle.sheets.specs.Layout.{variables};
ghost use Rattle.judging.specs.Unlimited.{plain_output};
ghost use Rattle.text.specs.Text.{Written};
ghost use Rattle.burmelox_check.specs.Input.{greatest_input};
ghost use Rattle.burmelox_check.specs.Printing.{sheets_text, program_text, PrintsLines};

use crate::input::claim_end;
use bounds::profiles::FULL;
use judging::check::check;
use report::reports::{LONGEST, report_text};

// How many bytes of standard input are read at most.
pub(crate) const GREATEST_INPUT: usize = 8192;

// How long a limits sheet is at most: for as many variables as a byte can say.
const LONGEST_LIMITS: usize = 1786;

// The number of variables that a claim says, 0 where it has no byte.
fn said_variables(claim: &[u8]) -> u8
    ensures { result ≡ variables claim.now }
{
    claim.first().copied().unwrap_or(0)
}

// The text for a claim and its proof, none of whose variables is limited, under the full profile, with an output for
// the exact proof; the answer is where the text ends.
fn print_sheets(claim: &[u8], proof: &[u8], output: &mut [u8], text: &mut [u8; LONGEST]) -> usize
    ensures written { output.new
        ≡ plain_output claim.now proof.now full_profile output.old }
    ensures text { Written text.old 0
        (sheets_text claim.now proof.now output.old) text.new result }
{
    let n = said_variables(claim);
    let mut limits = [0u8; LONGEST_LIMITS];
    limits[0] = n;
    let verdict = check(claim, proof, &limits[..1 + 7 * n as usize], FULL, output);
    report_text(claim, output, verdict, text)
}

// The text for an input, with an output as long as its proof; the answer is where the text ends.
pub(crate) fn print_input(input: &[u8], text: &mut [u8; LONGEST]) -> usize
    requires { length input.now ≤ greatest_input }
    ensures text { Written text.old 0 (program_text input.now) text.new result }
    ensures lines { PrintsLines input.now }
{
    let end = claim_end(input);
    let rest = input.len() - end;
    let mut output = [0u8; GREATEST_INPUT];
    print_sheets(&input[..end], &input[end..], &mut output[..rest], text)
}
