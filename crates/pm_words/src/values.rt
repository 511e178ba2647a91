ghost use Rattle.std.specs.Prelude.{◌≡◌, IfSome, true};
ghost use Rattle.std.specs.List.{list_all};
ghost use Rattle.std.specs.Char.{is_ascii_digit};
ghost use Rattle.pm_words.specs.Ranges.{IsFrom};
ghost use Rattle.pm_words.specs.Rows.{number_below, value_in};
ghost use Rattle.pm_words.specs.Words.{is_digits};

fn are_digits(bytes: &[u8]) -> bool
    ensures { result ≡ list_all is_ascii_digit bytes.now }
{
    bytes.iter().all(|byte| byte.is_ascii_digit())
}

/// Whether the text is 1 to 20 decimal digits.
fn is_digits(text: &str) -> bool
    ensures { result ≡ is_digits text.now }
{
    let length = text.len();
    are_digits(text.as_bytes()) && 1 <= length && length <= 20
}

/// The number that the digits write, if it has 64 bits.
fn number_of(text: &str) -> Option<u64>
    requires { is_digits text.now ≡ true }
    ensures { result ≡ number_below text.now }
{
    match text.parse::<u64>() {
        Ok(number) => Some(number),
        Err(_) => None,
    }
}

/// The number that the text writes, from `least` to `most`.
#[tactic(auto, unfolding(crate::specs::Rows::value_in))]
pub fn value(text: &str, least: u64, most: u64) -> Option<u64>
    ensures value { result ≡ value_in least most text.now }
    ensures within { IfSome result (IsFrom least most) }
{
    if !is_digits(text) {
        return None;
    }
    let number = number_of(text)?;
    if least <= number && number <= most {
        Some(number)
    } else {
        None
    }
}
