// The checks 16 to 19, in the order of their numbers.
ghost use Rattle.std.specs.Prelude.{◌≡◌, ◌<◌, ◌≤◌};
ghost use Rattle.bounds.specs.Bounds.{greatest_weight};
ghost use Rattle.answers.specs.Answers.{counted};
ghost use Rattle.sheets.specs.Layout.{row_count};
ghost use Rattle.targets.specs.Targets.{target_of};
ghost use Rattle.sharing.specs.Shifts.{shifted_row, CheckedSheets};
ghost use Rattle.judgements.specs.Judgements.{judgement_of, firsts_to};
ghost use Rattle.weighing.specs.Weighed.{rows_judged, weighed_answer};

use crate::unheld::first_unheld;
use answers::answers::Sheet;
use judgements::judgements::{Firsts, Judgement, chosen, judge, note};
use rows::proof_sheet::row_count;
use sharing::shifts::shifted_row;
use targets::targets::Aim;

// How row i is judged, with its shifted weights; the limit, here and below, is that of 17.
#[tactic(auto, unfolding(rows::specs::ProofSheet::by_value))]
pub fn judge_row(claim: &[u8], proof: &[u8], aim: Aim, limit: u64, i: usize) -> Judgement
    requires { (CheckedSheets claim.now proof.now aim) × (i < row_count proof.now) × (limit ≤ greatest_weight) }
    ensures { result ≡ judgement_of limit
        (shifted_row (target_of claim.now aim) proof.now i).weights }
{
    judge(shifted_row(claim, proof, aim, i), limit)
}

// Every row judged, in one pass.
#[tactic(auto, unfolding(answers::specs::Searches::first, judgements::specs::Judgements::judged_as, judgements::specs::Judgements::firsts_to, judgements::specs::Judgements::noted))]
fn judge_all(claim: &[u8], proof: &[u8], aim: Aim, limit: u64, k: usize) -> Firsts
    requires { (CheckedSheets claim.now proof.now aim) × (k ≡ row_count proof.now) × (limit ≤ greatest_weight) }
    ensures { result
        ≡ firsts_to limit (shifted_row (target_of claim.now aim) proof.now) k }
{
    let mut f = Firsts {
        beyond: None,
        negative: None,
        indefinite: None,
    };
    for i in 0..k {
        f = note(f, judge_row(claim, proof, aim, limit, i), i);
    }
    f
}

// The checks 17 to 19.
#[tactic(auto, unfolding(crate::specs::Weighed::rows_judged))]
fn check_judged(claim: &[u8], proof: &[u8], aim: Aim, limit: u64) -> Result<usize, Sheet>
    requires { (CheckedSheets claim.now proof.now aim) × (limit ≤ greatest_weight) }
    ensures { counted result ≡ rows_judged limit (target_of claim.now aim) proof.now }
{
    let k = row_count(proof);
    chosen(judge_all(claim, proof, aim, limit, k), k)
}

// The checks 16 to 19, for an aim.
#[tactic(auto, unfolding(answers::specs::Answers::accepted, answers::specs::Answers::blameless, answers::specs::Answers::and_then, crate::specs::Unheld::unheld_answer, crate::specs::Weighed::weighed_answer))]
pub fn weigh(claim: &[u8], proof: &[u8], aim: Aim, limit: u64) -> Result<usize, Sheet>
    requires { (CheckedSheets claim.now proof.now aim) × (limit ≤ greatest_weight) }
    ensures { counted result ≡ weighed_answer limit claim.now proof.now aim }
{
    if let Some(i) = first_unheld(claim, proof, aim) {
        return Err(Sheet::Proof(16, i));
    }
    check_judged(claim, proof, aim, limit)
}
