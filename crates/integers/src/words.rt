// Words of 16 and 32 bits in a slice of bytes, the lowest byte first; signed ones in two's complement.
ghost use Rattle.std.specs.Prelude.{◌≡◌, ◌+◌, ◌^◌, ◌<◌, ◌≤◌, length};
ghost use Rattle.std.specs.Int.{w32};
ghost use Rattle.std.proofs.Common.{SFits};
ghost use Rattle.integers.specs.Words.{u16_at, u32_at, i32_at, with_i32};

// The unsigned word of 16 bits at a place.
pub fn read_u16(s: &[u8], at: usize) -> u64
    requires { at + 2 ≤ length s.now }
    ensures { (result ≡ u16_at s.now at) × (result < 2 ^ 16) }
{
    u64::from(u16::from_le_bytes(s[at..at + 2].try_into().unwrap()))
}

// The unsigned word of 32 bits at a place.
#[tactic(auto, unfolding(crate::specs::Words::u32_at))]
pub fn read_u32(s: &[u8], at: usize) -> u64
    requires { at + 4 ≤ length s.now }
    ensures { (result ≡ u32_at s.now at) × (result < 2 ^ 32) }
{
    u64::from(u32::from_le_bytes(s[at..at + 4].try_into().unwrap()))
}

// The signed word at a place.
#[tactic(auto, unfolding(crate::specs::Words::i32_at, crate::specs::Words::u32_at))]
pub fn read_i32(s: &[u8], at: usize) -> i64
    requires { at + 4 ≤ length s.now }
    ensures { (result ≡ i32_at s.now at) × SFits w32 result }
{
    i64::from(i32::from_le_bytes(s[at..at + 4].try_into().unwrap()))
}

// A signed word at a place. Its four bytes change, and no other.
#[tactic(auto, using(crate::proofs::words::Steps::word_put))]
pub fn write_i32(out: &mut [u8], at: usize, v: i64)
    requires { (at + 4 ≤ length out.old) × SFits w32 v }
    ensures { out.new ≡ with_i32 out.old at v }
{
    out[at..at + 4].copy_from_slice(&(v as i32).to_le_bytes());
}
