// The word VERSION: decimal, or hex after 0x.
ghost use Rattle.std.specs.Prelude.{◌≤◌, ◌≡◌, ◌+◌, ◌*◌};
ghost use Rattle.maker.specs.Versions.{digit_in, word_of, digits_of, version_of};

// The value of a digit of a base.
#[tactic(auto, unfolding(basics::specs::Choice::pick))]
fn digit(c: u8, base: u8) -> Option<u8>
    requires { base ≤ 16 }
    ensures { result ≡ digit_in base c }
{
    line::nibble(c).filter(|digit| *digit < base)
}

// The number with a digit more.
#[tactic(auto, unfolding(basics::specs::Choice::pick))]
fn longer(value: u32, base: u8, digit: u8) -> Option<u32>
    ensures { result ≡ word_of (value * base + digit) }
{
    value.checked_mul(base as u32)?.checked_add(digit as u32)
}

// The number that digits of a base stand for.
// Kept: digit by digit: the library's `parse` takes a plus sign, which `digits_of` refuses.
#[tactic(auto, unfolding(crate::specs::Versions::digits_of, basics::specs::Choice::pick))]
fn digits(text: &[u8], base: u8) -> Option<u32>
    requires { (1 ≤ base) × (base ≤ 16) }
    ensures { result ≡ digits_of base text.now }
{
    if text.is_empty() {
        return None;
    }
    let mut value = 0;
    for c in text {
        value = longer(value, base, digit(*c, base)?)?;
    }
    Some(value)
}

// Hex digits after 0x, else decimal ones.
pub fn read(text: &[u8]) -> Option<u32>
    ensures { result ≡ version_of text.now }
{
    match text.strip_prefix(b"0x") {
        Some(hex) => digits(hex, 16),
        None => digits(text, 10),
    }
}
