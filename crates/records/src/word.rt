// Words out of bytes, lowest byte first.
ghost use Rattle.std.specs.Prelude.{◌≡◌, drop};
ghost use Rattle.records.specs.Words.{word_at};

// The bytes from `n` on.
pub fn after(bytes: &[u8], n: usize) -> &[u8]
    ensures { result.now ≡ drop n bytes.now }
{
    bytes.get(n..).unwrap_or(&[])
}

// The word at byte `at`; bytes behind the end count as 0.
pub fn word_at(bytes: &[u8], at: usize) -> u32
    ensures { result ≡ word_at bytes.now at }
{
    let rest = after(bytes, at);
    u32::from_le_bytes([0, 1, 2, 3].map(|k| rest.get(k).copied().unwrap_or(0)))
}
