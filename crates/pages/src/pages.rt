// Pages: the verdict and the first rows on 40 lines of 72 characters.
ghost use Rattle.std.specs.Prelude.{◌≡◌, suc, ◌+◌, ◌*◌, ◌<◌, length};
ghost use Rattle.answers.specs.Answers.{says};
ghost use Rattle.rows.specs.ProofSheet.{triple_of, Narrow};
ghost use Rattle.text.specs.Text.{texts_to, Written};
ghost use Rattle.text.specs.Columns.{Blank};
ghost use Rattle.report.specs.Reports.{Carries, Shows};
ghost use Rattle.pages.specs.Pages.{page_width, page_length, page_rows, Lined, row_columns, row_shown, table_text, table_line, verdict_page};

use answers::answers::Verdict;
use report::reports::{shown, verdict_line};
use rows::proof_sheet::{Triple, row_triple};
use sheets::layout::Shape;
use text::columns::column;
use text::text::{put_byte, put_text};

// How many characters a line has before its line feed, and how many rows a page shows.
const PAGE_WIDTH: usize = 72;

const PAGE_ROWS: usize = 38;

// How long a page is: 40 lines with their line feeds.
pub const PAGE_LENGTH: usize = 2920;

// A row: its index in 4 columns, and its weights in 12 each.
fn row_columns(i: usize, x: Triple, out: &mut [u8], at: usize) -> usize
    requires { (i < page_rows) × (Narrow x) × (Blank out.old at 40) }
    ensures { Written out.old at (row_columns i x) out.new result }
{
    let p = column(i as i64, 4, out, at);
    let q = column(x.p, 12, out, p);
    let r = column(x.q, 12, out, q);
    column(x.r, 12, out, r)
}

// Row i, and nothing where there is none.
fn row_shown(proof: &[u8], shape: Shape, i: usize, out: &mut [u8], at: usize) -> usize
    requires { (Shows proof.now shape) × (i < page_rows) × (Blank out.old at 40) }
    ensures { Written out.old at (row_shown (triple_of proof.now shape) shape.k i)
        out.new result }
{
    if shape.k <= i {
        return at;
    }
    let x = row_triple(proof, shape, i);
    row_columns(i, x, out, at)
}

// What stands on lines 2 to 40, counted from 0: a row, and `more` on the last where there are more.
fn table_text(proof: &[u8], shape: Shape, i: usize, out: &mut [u8], at: usize) -> usize
    requires { (Shows proof.now shape) × (Blank out.old at 40) }
    ensures { Written out.old at (table_text (triple_of proof.now shape) shape.k i)
        out.new result }
{
    if i < PAGE_ROWS {
        return row_shown(proof, shape, i, out, at);
    }
    if PAGE_ROWS < shape.k {
        return put_text(b"more", out, at);
    }
    at
}

// One of these lines, with its line feed.
fn table_line(proof: &[u8], shape: Shape, i: usize, out: &mut [u8], at: usize)
    requires { (Shows proof.now shape) × (Blank out.old at (suc page_width)) }
    ensures { Written out.old at (table_line (triple_of proof.now shape) shape.k i)
        out.new (at + suc page_width) }
{
    table_text(proof, shape, i, out, at);
    put_byte(b'\n', out, at + PAGE_WIDTH);
}

// Lines 2 to 40.
fn table(proof: &[u8], shape: Shape, out: &mut [u8], at: usize)
    requires { (Shows proof.now shape) × (Blank out.old at (suc page_rows * suc page_width)) }
    ensures { Written out.old at
        (texts_to (table_line (triple_of proof.now shape) shape.k) (suc page_rows))
        out.new (at + suc page_rows * suc page_width) }
{
    for i in 0..=PAGE_ROWS {
        table_line(proof, shape, i, out, at + i * (PAGE_WIDTH + 1));
    }
}

// The lines of a page, put one by one over spaces.
fn lay_out(claim: &[u8], proof: &[u8], verdict: Verdict, lines: &mut [u8; PAGE_LENGTH])
    requires { (Carries claim.now proof.now (says verdict)) × (Blank lines.old 0 page_length) }
    ensures { (lines.new ≡ verdict_page claim.now proof.now (says verdict))
        × (Lined lines.new) }
{
    verdict_line(claim, proof, verdict, lines, 0);
    let later = put_byte(b'\n', lines, PAGE_WIDTH);
    table(proof, shown(proof, verdict), lines, later);
}

// The page of a verdict on a claim, with its exact proof where it is accepted.
pub fn put_page(claim: &[u8], proof: &[u8], verdict: Verdict, page: &mut [u8])
    requires { (Carries claim.now proof.now (says verdict)) × (length page.old ≡ page_length) }
    ensures { (page.new ≡ verdict_page claim.now proof.now (says verdict))
        × (Lined page.new) }
{
    let mut lines = [32u8; PAGE_LENGTH];
    lay_out(claim, proof, verdict, &mut lines);
    page.copy_from_slice(&lines);
}
