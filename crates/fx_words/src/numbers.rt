//! Numbers among words.
ghost use Rattle.std.specs.Prelude.{◌≡◌, ◌≤◌, IfSome};
ghost use Rattle.std.specs.Str.{all_ascii_digits};
ghost use Rattle.fx_words.specs.Commands as spec;

// The number that a word says: 1 to 20 digits, at least 1 and at most so much.
pub(crate) fn number_to(most: u64, word: &str) -> Option<u64>
    ensures value { result ≡ spec.number_to most word.now }
    ensures within { IfSome result (λ number. (1 ≤ number) × (number ≤ most)) }
{
    if !is_digits(word) {
        return None;
    }
    match word.parse::<u64>() {
        Ok(number) => in_range(most, number),
        Err(_) => None,
    }
}

fn in_range(most: u64, number: u64) -> Option<u64>
    ensures value { result ≡ spec.in_range most number }
    ensures within { IfSome result (λ given. (1 ≤ given) × (given ≤ most)) }
{
    if number == 0 || number > most {
        None
    } else {
        Some(number)
    }
}

fn is_digits(word: &str) -> bool
    ensures { result ≡ spec.is_digits word.now }
{
    !word.is_empty() && word.len() <= 20 && has_digits(word.as_bytes())
}

fn has_digits(bytes: &[u8]) -> bool
    ensures { result ≡ all_ascii_digits bytes.now }
{
    for b in bytes {
        if !b.is_ascii_digit() {
            return false;
        }
    }
    true
}
