//! What stands behind the first two words of a line.

ghost use Rattle.std.specs.Prelude.{◌≡◌};
ghost use Rattle.text_lines.specs.Lines.{after_spaces, behind_word, behind_two};

fn skip_spaces(line: &str) -> &str
    ensures { result.now ≡ after_spaces line.now }
{
    let mut left = line;
    while let Some(rest) = left.strip_prefix(' ') {
        left = rest;
    }
    left
}

fn skip_word(line: &str) -> &str
    ensures { result.now ≡ behind_word line.now }
{
    match skip_spaces(line).split_once(' ') {
        Some((_, rest)) => rest,
        None => "",
    }
}

/// What stands behind the first two words of a line and the one space after them, all spaces kept.
/// Example: `behind_two_words("label 0  a  b ")` is `" a  b "`.
pub fn behind_two_words(line: &str) -> &str
    ensures { result.now ≡ behind_two line.now }
{
    skip_word(skip_word(line))
}
