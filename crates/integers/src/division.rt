// Division towards minus infinity, by a positive count.
ghost use Rattle.std.specs.Prelude.{◌≡◌, ◌<◌};
ghost use Rattle.integers.specs.Division.{floor_div, floor_mod, share};

// The quotient.
#[tactic(auto, using(crate::proofs::division::Steps::floor_euclid))]
pub fn floor_div(e: i64, count: u32) -> i64
    requires { 0 < count }
    ensures { result ≡ floor_div e count }
{
    e.div_euclid(i64::from(count))
}

// What is left over: at least 0, and below the count.
#[tactic(auto, using(crate::proofs::division::Steps::mod_euclid))]
pub fn floor_mod(e: i64, count: u32) -> u32
    requires { 0 < count }
    ensures { result ≡ floor_mod e count }
{
    e.rem_euclid(i64::from(count)) as u32
}

// What the slot of a rank, from 0, among so many slots gets of an error: the remainder goes one each to the first.
pub fn share(e: i64, count: u32, rank: u32) -> i64
    requires { 0 < count }
    ensures { result ≡ share e count rank }
{
    let q = floor_div(e, count);
    if rank < floor_mod(e, count) { q + 1 } else { q }
}
