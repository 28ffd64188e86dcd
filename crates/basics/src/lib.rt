// What every crate stands on: the definitions of `specs`, and numbers read from bytes.
#![tactic(auto)]

ghost use Rattle.std.specs.Prelude.{◌≡◌, ◌+◌, ◌≤◌, length};
ghost use Rattle.basics.specs.Words.{byte_at, joined, word_at};

// Four bytes as a number, low byte first.
pub fn word(a: u8, b: u8, c: u8, d: u8) -> u32
    ensures { result ≡ joined a b c d }
{
    u32::from_le_bytes([a, b, c, d])
}

// The word that starts at `at`.
pub fn word_at(part: &[u8], at: usize) -> u32
    requires { at + 4 ≤ length part.now }
    ensures { result ≡ word_at part.now at }
{
    word(part[at], part[at + 1], part[at + 2], part[at + 3])
}

// The byte at an index, 0 past the end.
pub fn byte_at(s: &[u8], at: usize) -> u8
    ensures { result ≡ byte_at s.now at }
{
    s.get(at).copied().unwrap_or(0)
}
