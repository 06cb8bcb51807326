// Numbers read from their decimal digits.
ghost use Rattle.std.specs.Prelude.{◌≡◌, List, ◌∷◌, ℕ, None, MatchOption};
ghost use Rattle.text.specs.Numbers.{read_on, number_of};

// The number that the digits so far are, with one more; none where the byte is no digit, or the number has more than 32 bits.
fn with_digit(value: u32, byte: u8) -> Option<u32>
    ensures { (rest : List ℕ) → MatchOption result (read_on value (byte ∷ rest) ≡ None) (λ n. read_on value (byte ∷ rest) ≡ read_on n rest) }
{
    if !byte.is_ascii_digit() {
        return None;
    }
    value.checked_mul(10)?.checked_add(u32::from(byte - b'0'))
}

// The number of 32 bits that a word is.
pub fn number_of(word: &[u8]) -> Option<u32>
    ensures { result ≡ number_of word.now }
{
    if word.is_empty() {
        return None;
    }
    let mut value = 0;
    for byte in word {
        value = with_digit(value, *byte)?;
    }
    Some(value)
}
