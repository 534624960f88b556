//! Words that are numbers.

ghost use Rattle.std.specs.Prelude.{◌≡◌, ◌<◌, ◌^◌, IfSome};
ghost use Rattle.std.specs.List.{list_all};
ghost use Rattle.std.specs.Char.{is_ascii_digit};
ghost use Rattle.text_lines.specs.Numbers.{number_of, is_number};

fn all_digits(word: &str) -> bool
    ensures { result ≡ list_all is_ascii_digit word.now }
{
    word.as_bytes().iter().all(|b| b.is_ascii_digit())
}

fn has_number(word: &str) -> bool
    ensures { result ≡ is_number word.now }
{
    !word.is_empty() && word.len() <= 10 && all_digits(word)
}

/// The number that a word spells in 1 to 10 decimal digits.
/// Example: `number("007")` is `Some(7)`, and `number("+5")` is `None`.
pub fn number(word: &str) -> Option<u64>
    ensures value { result ≡ number_of word.now }
    ensures in_range { IfSome result (λ n. n < 10 ^ 10) }
{
    if has_number(word) {
        word.parse().ok()
    } else {
        None
    }
}
