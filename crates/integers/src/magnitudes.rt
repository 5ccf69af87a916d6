// Absolute values.
ghost use Rattle.std.specs.Prelude.{◌≡◌, nat_abs};

// The absolute value of any number, the least one too.
pub fn magnitude(x: i64) -> u64
    ensures { result ≡ nat_abs x }
{
    x.unsigned_abs()
}
