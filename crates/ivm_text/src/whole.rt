//! Whole numbers from their decimal texts.

ghost use Rattle.std.specs.Prelude.{◌≡◌, ℕ, ◌<◌, ◌≤◌, ◌≢◌, true, IfSome, IfNone, ℤ};
ghost use Rattle.std.specs.Fmt.{decimal, signed_decimal};
ghost use Rattle.std.specs.Str.{all_ascii_digits};
ghost use Rattle.ivm_text.specs.Text.{max_number, IsNumber};
ghost use Rattle.ivm_text.specs.Whole.{read_on};

const MAX_NUMBER: u64 = 9_007_199_254_740_991;

fn digits_value(digits: &[u16]) -> Option<u64>
    ensures some { IfSome result (λ n. (all_ascii_digits digits.now ≡ true) × (n ≡ read_on 0 digits.now) × (n ≤ max_number)) }
    ensures none { IfNone result (all_ascii_digits digits.now ≡ true → max_number < read_on 0 digits.now) }
{
    let mut n: u64 = 0;
    for digit in digits {
        if *digit < 48 || 57 < *digit {
            return None;
        }
        n = 10 * n + (*digit as u64 - 48);
        if n > MAX_NUMBER {
            return None;
        }
    }
    Some(n)
}

fn magnitude(digits: &[u16]) -> Option<u64>
    ensures some { IfSome result (λ n. (decimal n ≡ digits.now) × (n ≤ max_number)) }
    ensures none { IfNone result ((n : ℕ) → n ≤ max_number → decimal n ≢ digits.now) }
{
    if digits.is_empty() {
        return None;
    }
    if digits[0] == 48 && digits.len() > 1 {
        return None;
    }
    let n = digits_value(digits)?;
    Some(n)
}

/// The number of a script of which this is the decimal text.
pub(crate) fn read_whole(units: &[u16]) -> Option<i64>
    ensures some { IfSome result (λ n. (signed_decimal n ≡ units.now) × IsNumber n) }
    ensures none { IfNone result ((n : ℤ) → IsNumber n → signed_decimal n ≢ units.now) }
{
    match units.split_first() {
        Some((45, digits)) => {
            let n = magnitude(digits)?;
            if n == 0 {
                return None;
            }
            Some(-(n as i64))
        }
        _ => {
            let n = magnitude(units)?;
            Some(n as i64)
        }
    }
}
