// Decimal numbers.
ghost use Rattle.std.specs.Prelude.{◌≡◌};
ghost use Rattle.lines.specs.Decimal.{number_of, with_digit};

// The number with one more digit behind it. There is none where the byte is no digit, or the number not below 2^64.
#[tactic(auto, unfolding(crate::specs::Decimal::with_digit))]
pub fn with_digit(value: u64, byte: u8) -> Option<u64>
    ensures { result ≡ with_digit value byte }
{
    if !byte.is_ascii_digit() {
        return None;
    }
    value.checked_mul(10)?.checked_add(u64::from(byte - b'0'))
}

// The number that the whole text says.
#[tactic(auto, using(crate::proofs::DecimalLaws::no_number, crate::proofs::DecimalLaws::digit_next, crate::proofs::DecimalLaws::number_ended), unfolding(crate::specs::Decimal::number_of))]
pub fn parse(text: &[u8]) -> Option<u64>
    ensures { result ≡ number_of text.now }
{
    if text.is_empty() {
        return None;
    }
    let mut value: u64 = 0;
    for byte in text {
        value = with_digit(value, *byte)?;
    }
    Some(value)
}
