// Reports: what the program prints for a verdict.
ghost use Rattle.std.specs.Prelude.{◌≡◌, ◌+◌, ◌<◌, ◌≤◌, length};
ghost use Rattle.answers.specs.Answers.{says};
ghost use Rattle.sheets.specs.Layout.{ProofRoom};
ghost use Rattle.text.specs.Text.{Room, Written};
ghost use Rattle.report.specs.Reports.{shown_of, CarriesRows, Carries, Shows, verdict_line, row_text, rows_text, has_rows, reportable, report_text};

use answers::answers::{Verdict, numbers_of};
use bounds::bounds::{MOST_ROWS, MOST_VARIABLES};
use rows::proof_sheet::{proof_length, row_triple, scale};
use sheets::claim_sheet::floor;
use sheets::layout::{Shape, variables};
use text::lines::{accepted_line, refused_line, row_line};
use text::text::put_byte;

// The longest report: 53 bytes for the first line, and 50 for each row.
pub const LONGEST: usize = 53 + 50 * MOST_ROWS;

// The first line of a verdict's report, without its line feed. It has at most 52 bytes.
pub fn verdict_line(
    claim: &[u8],
    proof: &[u8],
    verdict: Verdict,
    out: &mut [u8],
    at: usize,
) -> usize
    requires { (Carries claim.now proof.now (says verdict)) × (at + 52 ≤ length out.old) }
    ensures { (Written out.old at
        (verdict_line claim.now proof.now (says verdict)) out.new result)
        × (result ≤ at + 52) }
{
    let Verdict::Accepted(k) = verdict else {
        let said = numbers_of(verdict);
        return refused_line(said.number as u64, said.value as u64, out, at);
    };
    accepted_line(k as u64, scale(proof), floor(claim), out, at)
}

// The rows that have a line each: those of an acceptance, and none of a refusal.
pub fn shown(proof: &[u8], verdict: Verdict) -> Shape
    requires { CarriesRows proof.now (says verdict) }
    ensures { (result ≡ shown_of proof.now (says verdict)) × (Shows proof.now result) }
{
    match verdict {
        Verdict::Accepted(k) => Shape {
            n: variables(proof),
            k,
        },
        Verdict::Refused(_) => Shape { n: 0, k: 0 },
    }
}

// The line of row i.
fn row_text(proof: &[u8], shape: Shape, i: usize, out: &mut [u8], at: usize) -> usize
    requires { (ProofRoom proof.now shape) × (i < shape.k) × (Room out.old at (row_text proof.now shape i)) }
    ensures { Written out.old at (row_text proof.now shape i) out.new result }
{
    let x = row_triple(proof, shape, i);
    let row = row_line(i as u64, x, out, at);
    put_byte(b'\n', out, row)
}

// The lines of all rows.
fn rows_text(proof: &[u8], shape: Shape, out: &mut [u8], at: usize) -> usize
    requires { (Shows proof.now shape) × (Room out.old at (rows_text proof.now shape)) }
    ensures { Written out.old at (rows_text proof.now shape) out.new result }
{
    let mut end = at;
    for i in 0..shape.k {
        end = row_text(proof, shape, i, out, end);
    }
    end
}

// Whether a proof has k rows.
#[tactic(auto, unfolding(crate::specs::Reports::has_rows))]
fn has_rows(proof: &[u8], k: usize) -> bool
    ensures { result ≡ has_rows proof.now k }
{
    if proof.len() < 8 {
        return false;
    }
    let n = variables(proof);
    n <= MOST_VARIABLES && k <= MOST_ROWS && proof_length(Shape { n, k }) <= proof.len()
}

// Whether the sheets have what a report prints: of an acceptance of k rows a floor and k rows.
fn reportable(claim: &[u8], proof: &[u8], verdict: Verdict) -> bool
    ensures { result ≡ reportable claim.now proof.now (says verdict) }
{
    match verdict {
        Verdict::Accepted(k) => 8 <= claim.len() && has_rows(proof, k),
        Verdict::Refused(_) => true,
    }
}

// The report of a verdict on a claim, with its exact proof where it is accepted; the answer is where the text ends.
// An acceptance of more than the sheets have, which is no check's verdict, has no text.
pub fn report_text(claim: &[u8], proof: &[u8], verdict: Verdict, out: &mut [u8; LONGEST]) -> usize
    ensures { Written out.old 0 (report_text claim.now proof.now (says verdict))
        out.new result }
{
    if !reportable(claim, proof, verdict) {
        return 0;
    }
    let first = verdict_line(claim, proof, verdict, out, 0);
    let rows = put_byte(b'\n', out, first);
    rows_text(proof, shown(proof, verdict), out, rows)
}
