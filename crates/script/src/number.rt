// Numbers in decimal, below 2^64.
ghost use Rattle.std.specs.Prelude.{◌≡◌, ◌+◌, ◌*◌, ◌^◌, ◌<◌, ◌≤◌, ◌⊎◌, MatchOption};
ghost use Rattle.std.specs.Char.{digit_value};
ghost use Rattle.script.specs.Texts.{Decimal, NoDecimal};

// The number with one more digit.
fn with_digit(n: u64, b: u8) -> Option<u64>
    ensures { MatchOption result ((10 ≤ digit_value b) ⊎ (2 ^ 64 ≤ n * 10 + digit_value b)) (λ m. (digit_value b < 10) × (m ≡ n * 10 + digit_value b) × (m < 2 ^ 64)) }
{
    let digit = char::from(b).to_digit(10)?;
    n.checked_mul(10)?.checked_add(u64::from(digit))
}

// The number that the word writes, if it is digits alone and fits 64 bits.
pub fn decimal(word: &[u8]) -> Option<u64>
    ensures { MatchOption result (NoDecimal word.now) (Decimal word.now) }
{
    if word.is_empty() {
        return None;
    }
    let mut n: u64 = 0;
    for b in word {
        n = with_digit(n, *b)?;
    }
    Some(n)
}
