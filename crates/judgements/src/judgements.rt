// Judgements: a row by the first rule that it breaks, and 17 to 19 over all rows.
ghost use Rattle.std.specs.Prelude.{◌≡◌, ◌≤◌, eqb};
ghost use Rattle.bounds.specs.Bounds.{greatest_weight};
ghost use Rattle.answers.specs.Answers.{counted};
ghost use Rattle.checks.specs.ProofChecks.{Within};
ghost use Rattle.judgements.specs.Judgements.{indefinite, judge_pair, judge_lone, judgement_of, number_of, noted, judged_answer};

use answers::answers::Sheet;
use bounds::bounds::is_beyond;
use checks::proof_checks::any_beyond;
use rows::proof_sheet::{Row, Triple};
use squares::rows::Weights;

// How a row is judged.
#[derive(Clone, Copy, PartialEq, Eq)]
pub enum Judgement {
    Holds,
    // 17: a weight is beyond the limit
    Beyond,
    // 18: p or q is negative
    Negative,
    // 19: r × r is over 4 × p × q
    Indefinite,
}

// The first row of each judgement that refuses.
#[derive(Clone, Copy)]
pub struct Firsts {
    pub beyond: Option<usize>,
    pub negative: Option<usize>,
    pub indefinite: Option<usize>,
}

// Whether r × r is over 4 × p × q.
#[tactic(auto, using(crate::proofs::judgements::Steps::compared), unfolding(crate::specs::Judgements::indefinite))]
fn is_indefinite(x: Triple) -> bool
    requires { Within greatest_weight x }
    ensures { result ≡ indefinite x }
{
    x.p * x.q * 4 < x.r * x.r
}

// A pair by its three weights.
#[tactic(auto, using(checks::proofs::proof_checks::Laws::none_beyond, checks::proofs::proof_checks::Laws::triple_larger), unfolding(crate::specs::Judgements::judge_pair, crate::specs::Judgements::negative))]
fn judge_pair(x: Triple, limit: u64) -> Judgement
    requires { limit ≤ greatest_weight }
    ensures { result ≡ judge_pair limit x }
{
    if any_beyond(x, limit) {
        Judgement::Beyond
    } else if x.p < 0 || x.q < 0 {
        Judgement::Negative
    } else if is_indefinite(x) {
        Judgement::Indefinite
    } else {
        Judgement::Holds
    }
}

// A lone row by its one weight.
#[tactic(auto, unfolding(crate::specs::Judgements::judge_lone, crate::specs::Judgements::negative))]
fn judge_lone(p: i64, limit: u64) -> Judgement
    ensures { result ≡ judge_lone limit p }
{
    if is_beyond(p, limit) {
        Judgement::Beyond
    } else if p < 0 {
        Judgement::Negative
    } else {
        Judgement::Holds
    }
}

// A row by its weights: a pair is let through to its three rules, a lone row is judged by its one slot (a rule of the
// project).
#[tactic(auto, unfolding(rows::specs::ProofSheet::triple_for, crate::specs::Judgements::judgement_of))]
pub fn judge(row: Row, limit: u64) -> Judgement
    requires { limit ≤ greatest_weight }
    ensures { result ≡ judgement_of limit row.weights }
{
    let Weights::Pair(p, q, r) = row.weights else {
        return judge_lone(Triple::from(row.weights).p, limit);
    };
    judge_pair(Triple { p, q, r }, limit)
}

// Whether a judgement is that the row holds.
#[tactic(auto, unfolding(crate::specs::Judgements::number_of))]
pub fn holds(j: Judgement) -> bool
    ensures { result ≡ eqb (number_of j) 0 }
{
    j == Judgement::Holds
}

// One row more, by its judgement.
#[tactic(auto, using(answers::proofs::searches::Laws::kept_past), unfolding(answers::specs::Searches::kept, crate::specs::Judgements::noted, crate::specs::Judgements::number_of))]
pub fn note(f: Firsts, j: Judgement, i: usize) -> Firsts
    ensures { result ≡ noted f j i }
{
    match j {
        Judgement::Holds => f,
        Judgement::Beyond => Firsts {
            beyond: f.beyond.or(Some(i)),
            ..f
        },
        Judgement::Negative => Firsts {
            negative: f.negative.or(Some(i)),
            ..f
        },
        Judgement::Indefinite => Firsts {
            indefinite: f.indefinite.or(Some(i)),
            ..f
        },
    }
}

// 17 over all rows before 18, and 18 before 19.
#[tactic(auto, unfolding(crate::specs::Judgements::judged_answer))]
pub fn chosen(f: Firsts, k: usize) -> Result<usize, Sheet>
    ensures { counted result ≡ judged_answer f k }
{
    if let Some(i) = f.beyond {
        return Err(Sheet::Proof(17, i));
    }
    if let Some(i) = f.negative {
        return Err(Sheet::Proof(18, i));
    }
    if let Some(i) = f.indefinite {
        return Err(Sheet::Proof(19, i));
    }
    Ok(k)
}
