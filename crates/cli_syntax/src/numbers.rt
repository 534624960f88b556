//! Numbers in decimal digits.

ghost use Rattle.std.specs.Prelude.{◌≡◌, ◌≤◌, ◌<◌, ◌^◌, IfSome};
ghost use Rattle.std.specs.List.{list_all};
ghost use Rattle.std.specs.Char.{is_ascii_digit};
ghost use Rattle.cli_syntax.specs.Reading.{is_number, has_leading_zero, number_of, within};

fn all_digits(text: &str) -> bool
    ensures { result ≡ list_all is_ascii_digit text.now }
{
    text.as_bytes().iter().all(|b| b.is_ascii_digit())
}

fn has_leading_zero(text: &str) -> bool
    ensures { result ≡ has_leading_zero text.now }
{
    let bytes = text.as_bytes();
    bytes.len() > 1 && bytes[0] == b'0'
}

fn is_number(text: &str) -> bool
    ensures { result ≡ is_number text.now }
{
    !text.is_empty() && text.len() <= 10 && all_digits(text) && !has_leading_zero(text)
}

// The number that a text spells.
fn number(text: &str) -> Option<u64>
    ensures { result ≡ number_of text.now }
{
    if is_number(text) {
        text.parse().ok()
    } else {
        None
    }
}

/// The number that a text spells, where it is in this range.
/// Example: `within("8", 1, 64)` is `Some(8)`, `within("08", 1, 64)` is `None`.
#[tactic(auto, unfolding(crate::specs::Reading::within))]
pub fn within(text: &str, least: u64, greatest: u64) -> Option<u64>
    ensures value { result ≡ within least greatest text.now }
    ensures bound { IfSome result (λ n. n ≤ greatest) }
{
    let number = number(text)?;
    if least <= number && number <= greatest {
        Some(number)
    } else {
        None
    }
}
