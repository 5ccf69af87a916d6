// Standard input into a buffer.
ghost use Rattle.std.specs.Prelude.{IfOk, OnErr, ℕ, ◌≤◌, ◌<◌, length, take};
ghost use Rattle.std.specs.Io.KnownBytes.{Consumes, IsAtEnd};

use std::io::{self, Read};

// Reads until the bytes are full or the input ends: how many were read. Where a read fails, what was read before it
// stands in the first bytes.
pub(crate) fn read_full<R: Read>(reader: &mut R, bytes: &mut [u8]) -> io::Result<usize>
    ensures bound { IfOk result (λ count. count ≤ length bytes.new) }
    ensures read { IfOk result (λ count.
        Consumes (R.remaining reader.old) (R.remaining reader.new) (take count bytes.new)) }
    ensures end { IfOk result (λ count. count < length bytes.new → IsAtEnd (R.remaining reader.new)) }
    ensures failed { OnErr result ((count : ℕ) × (count ≤ length bytes.new)
        × Consumes (R.remaining reader.old) (R.remaining reader.new) (take count bytes.new)) }
{
    let mut count = 0;
    while count < bytes.len() {
        let more = reader.read(&mut bytes[count..])?;
        if more == 0 {
            break;
        }
        count += more;
    }
    Ok(count)
}
