//! Bytes at a place of a row; numbers stand there with the low byte first.
ghost use Rattle.std.specs.Prelude.{◌≡◌, ◌+◌, ◌≤◌, length, take, drop};
ghost use Rattle.raft_log.specs.Bytes.{eight, word_at, laid};

/// Puts bytes over those from `at` on.
pub fn put<const N: usize>(out: &mut [u8], at: usize, bytes: [u8; N])
    requires { at + N ≤ length out.old }
    ensures { out.new ≡ laid out.old at bytes.entry }
{
    out[at..at + N].copy_from_slice(&bytes);
}

/// The bytes from `at` on.
pub fn get<const N: usize>(bytes: &[u8], at: usize) -> [u8; N]
    requires { at + N ≤ length bytes.now }
    ensures { result ≡ take N (drop at bytes.now) }
{
    let mut part = [0; N];
    part.copy_from_slice(&bytes[at..at + N]);
    part
}

/// Puts a number over the eight bytes from `at` on.
pub fn put_u64(out: &mut [u8], at: usize, word: u64)
    requires { at + 8 ≤ length out.old }
    ensures { out.new ≡ laid out.old at (eight word) }
{
    put(out, at, word.to_le_bytes());
}

/// The number that the eight bytes from `at` on are.
pub fn get_u64(bytes: &[u8], at: usize) -> u64
    requires { at + 8 ≤ length bytes.now }
    ensures { result ≡ word_at bytes.now at }
{
    u64::from_le_bytes(get(bytes, at))
}
