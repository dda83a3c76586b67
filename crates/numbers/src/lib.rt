// Numbers in bytes, lowest byte first: read and written, 32 and 64 bits.
#![tactic(auto)]

ghost use Rattle.std.specs.Prelude.{◌≡◌, ◌+◌, ◌≤◌, length};
ghost use Rattle.std.proofs.lemmas.List.Edits.{sets};
ghost use Rattle.numbers.specs.Words.{word, long, word_bytes, long_bytes};

// The number of 32 bits at a place.
pub fn word(s: &[u8], at: usize) -> u32
    requires { at + 4 ≤ length s.now }
    ensures { result ≡ word s.now at }
{
    u32::from_le_bytes([s[at], s[at + 1], s[at + 2], s[at + 3]])
}

// The number of 64 bits at a place.
pub fn long(s: &[u8], at: usize) -> u64
    requires { at + 8 ≤ length s.now }
    ensures { result ≡ long s.now at }
{
    let low = word(s, at);
    let high = word(s, at + 4);
    u64::from(low) + (u64::from(high) << 32)
}

// The number's four bytes at a place. No other byte changes.
pub fn put_word(buf: &mut [u8], at: usize, n: u32)
    requires { at + 4 ≤ length buf.old }
    ensures { buf.new ≡ sets buf.old at (word_bytes n) }
{
    buf[at..at + 4].copy_from_slice(&n.to_le_bytes());
}

// The number's eight bytes at a place. No other byte changes.
pub fn put_long(buf: &mut [u8], at: usize, n: u64)
    requires { at + 8 ≤ length buf.old }
    ensures { buf.new ≡ sets buf.old at (long_bytes n) }
{
    buf[at..at + 8].copy_from_slice(&n.to_le_bytes());
}
