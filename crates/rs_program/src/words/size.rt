//! A number of bytes, as text.

ghost use Rattle.std.specs.Prelude.{◌≡◌, ◌<◌, ◌^◌, ◌++◌, ◌∷◌, [], ℕ, List, IfSome, IfNone, SomeIff};
ghost use Rattle.std.specs.Str.Parse.{IsNumeral, digits_value};
ghost use Rattle.rs_program.specs.CommandLine.{IsSize, IsUnit};

/// How many bytes a text means: a number in decimal, or one before K, M or G, which count 1,024, its square or its cube. `None` if it is
/// another text, or means none, or more than a u64 holds.
pub(super) fn read_size(text: &str) -> Option<u64>
    ensures some { IfSome result (IsSize text.now) }
    ensures none { IfNone result ((bytes : ℕ) → ¬ IsSize text.now bytes) }
{
    let (digits, each) = split_unit(text.as_bytes());
    let bytes = decimal(digits)?.checked_mul(each)?;
    if bytes == 0 {
        return None;
    }
    Some(bytes)
}

/// The text before the letter of a size, and how many bytes the letter counts. One, if there is no letter.
fn split_unit(text: &[u8]) -> (&[u8], u64)
    ensures parts { (letters : List ℕ) × (text.now ≡ result.0.now ++ letters) × IsUnit letters result.1 }
    ensures only { (digits letters : List ℕ) (each : ℕ) → text.now ≡ digits ++ letters → IsNumeral 10 digits → IsUnit letters each
        → (digits ≡ result.0.now) × (each ≡ result.1) }
{
    match text.split_last() {
        Some((letter, digits)) => match unit(*letter) {
            Some(each) => (digits, each),
            None => (text, 1),
        },
        None => (text, 1),
    }
}

/// How many bytes a letter counts.
fn unit(letter: u8) -> Option<u64>
    ensures some { IfSome result (IsUnit (letter ∷ [])) }
    ensures none { IfNone result ((each : ℕ) → ¬ IsUnit (letter ∷ []) each) }
{
    match letter {
        b'K' => Some(1_024),
        b'M' => Some(1_024 * 1_024),
        b'G' => Some(1_024 * 1_024 * 1_024),
        _ => None,
    }
}

/// The number that the digits write. `None` if there are none, one is no digit, or no u64 holds it.
fn decimal(digits: &[u8]) -> Option<u64>
    ensures { SomeIff result (IsNumeral 10 digits.now × (digits_value 10 digits.now < 2 ^ 64)) (digits_value 10 digits.now) }
{
    if digits.is_empty() {
        return None;
    }
    let mut number: u64 = 0;
    for digit in digits {
        if !digit.is_ascii_digit() {
            return None;
        }
        number = number
            .checked_mul(10)?
            .checked_add(u64::from(*digit - b'0'))?;
    }
    Some(number)
}
