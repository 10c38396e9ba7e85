//! Bytes as a text, or the place of the first byte that no text could have there.

ghost use Rattle.std.specs.Prelude.{◌≡◌, ◌≤◌, length, MatchResult};
ghost use Rattle.std.specs.Str.{IsUtf8};
ghost use Rattle.ivm_text.specs.Text.{fault_place};

/// The bytes as a text in UTF-8. The error is the place of the first byte that no UTF-8 text could
/// have there, and the number of the bytes where they only end inside a character. It takes no
/// memory.
pub fn text_of(bytes: &[u8]) -> Result<&str, usize>
    ensures cases { MatchResult result (λ text. text.now ≡ bytes.now) (λ place. (place ≡ fault_place bytes.now) × (place ≤ length bytes.now)) }
    ensures utf8 { MatchResult result (λ _. IsUtf8 bytes.now) (λ _. ¬ (IsUtf8 bytes.now)) }
{
    match std::str::from_utf8(bytes) {
        Ok(text) => Ok(text),
        Err(error) => {
            let valid = error.valid_up_to();
            let place = match error.error_len() {
                None => bytes.len(),
                Some(len) => {
                    if 0xC2 <= bytes[valid] && bytes[valid] <= 0xF4 {
                        valid + len
                    } else {
                        valid
                    }
                }
            };
            Err(place)
        }
    }
}
