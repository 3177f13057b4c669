//! Numbers as words.

ghost use Rattle.std.specs.Prelude.{◌≡◌, ◌≢◌, ℕ, ℤ, List, ◌∷◌, ◌↔◌, IsTrue, MatchOption};
ghost use Rattle.option_words.specs.Number.{IsNumber, IsSigned};
ghost use Rattle.option_words.specs.state.Answers.{FindsNumber, FindsSigned};
ghost use Rattle.option_words.specs.state.Number.{BeginsAsNumber};

/// The number that `word` spells in decimal digits, without a sign or a leading zero. `None` if `word` spells no number
/// below 2^64.
pub fn number_of(word: &str) -> Option<u64>
    ensures { FindsNumber word.now result }
{
    if begins_as_number(word.as_bytes()) {
        word.parse::<u64>().ok()
    } else {
        None
    }
}

/// Whether a word spells a number from `low` to `high`.
pub fn is_number(word: &str, low: u64, high: u64) -> bool
    ensures { IsTrue result ↔ ((n : ℕ) × IsNumber low high word.now n) }
{
    match number_of(word) {
        Some(n) => low <= n && n <= high,
        None => false,
    }
}

/// The number that `word` spells in decimal digits without a leading zero. If the number is below 0, a `-` precedes the
/// digits. `None` if `word` spells no number from -(2^63 - 1) to 2^63 - 1.
pub fn signed_number_of(word: &str) -> Option<i64>
    ensures { FindsSigned word.now result }
{
    match after_minus(word) {
        Some(digits) => negative_of(digits),
        None => i64::try_from(number_of(word)?).ok(),
    }
}

/// Whether a word spells a number from `-most` to `most`.
pub fn is_signed(word: &str, most: u32) -> bool
    ensures { IsTrue result ↔ ((z : ℤ) × IsSigned most word.now z) }
{
    match signed_number_of(word) {
        Some(z) => z.unsigned_abs() <= u64::from(most),
        None => false,
    }
}

/// The negative number that `-` followed by `digits` spells. `None` if `-` and `digits` together spell no number from
/// -(2^63 - 1) to -1.
fn negative_of(digits: &str) -> Option<i64>
    ensures { FindsSigned (45 ∷ digits.now) result }
{
    let n = number_of(digits)?;
    if n == 0 {
        return None;
    }
    match i64::try_from(n) {
        Ok(n) => Some(-n),
        Err(_) => None,
    }
}

/// The part of `word` after a leading `-`. `None` if `word` does not begin with `-`.
fn after_minus(word: &str) -> Option<&str>
    ensures { MatchOption result ((rest : List ℕ) → word.now ≢ 45 ∷ rest) (λ rest. word.now ≡ 45 ∷ rest.now) }
{
    word.strip_prefix('-')
}

fn begins_as_number(bytes: &[u8]) -> bool
    ensures { IsTrue result ↔ BeginsAsNumber bytes.now }
{
    match bytes {
        [] => false,
        [b'0', _, ..] => false,
        [first, ..] => first.is_ascii_digit(),
    }
}
