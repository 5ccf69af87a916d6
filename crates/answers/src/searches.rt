// Searches: the first index at which something is wrong, or whatever else is looked for.
ghost use Rattle.std.specs.Prelude.{ℕ, ◌<◌, IfSome};
ghost use Rattle.answers.specs.Searches.{FindsFirst};

// The first index below n at which a test answers true, be it terms, rows, variables or floors that are gone through.
#[tactic(auto, unfolding(crate::specs::Searches::first, crate::specs::Searches::kept))]
pub fn first_at<F: Fn(usize) -> bool>(n: usize, wrong: F) -> Option<usize>
    requires { (k : ℕ) → k < n → F.pre wrong k }
    ensures first { FindsFirst (F.post wrong) n result }
    ensures below { IfSome result (λ i. i < n) }
{
    for i in 0..n {
        if wrong(i) {
            return Some(i);
        }
    }
    None
}
