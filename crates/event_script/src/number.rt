//! Number words.
ghost use Rattle.std.specs.Prelude.{◌≡◌, ◌+◌, ◌*◌, ◌^◌, ◌≤◌, IfSome, MatchOption};
ghost use Rattle.script_model.specs.Numbers.{number_in};

/// The number that a word says, where it is one from `low` to `high`: decimal digits alone, with no leading
/// zero but `0` itself.
pub fn number_word(word: &[u8], low: u64, high: u64) -> Option<u64>
    ensures value { result ≡ number_in low high word.now }
    ensures range { IfSome result (λ n. (low ≤ n) × (n ≤ high)) }
{
    if word.is_empty() || (word.len() > 1 && word[0] == b'0') {
        return None;
    }
    let mut value: u64 = 0;
    for c in word {
        if !c.is_ascii_digit() {
            return None;
        }
        let Some(next) = with_digit(value, *c - b'0') else {
            return None;
        };
        value = next;
    }
    if low <= value && value <= high {
        Some(value)
    } else {
        None
    }
}

// The number with one more digit, where it is below 2^64.
fn with_digit(value: u64, digit: u8) -> Option<u64>
    ensures { MatchOption result (2 ^ 64 ≤ 10 * value + digit) (λ next. next ≡ 10 * value + digit) }
{
    value.checked_mul(10)?.checked_add(u64::from(digit))
}
