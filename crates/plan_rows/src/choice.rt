//! Sets of words, of which one stands at a place of a line.

ghost use Rattle.std.specs.Prelude.{◌≡◌, ◌≤◌, [], get_or, length, map};
ghost use Rattle.plan_rows.specs.Choices.{names, place_from};

/// A set of words.
#[derive(Clone, Copy, Debug, PartialEq, Eq)]
pub enum Choice {
    /// The version of a text.
    Version,
    /// How packets are carried.
    Carry,
    /// The robustness mode.
    Mode,
    /// The depth of the interleaver.
    Depth,
    /// Whether a service is one of audio or of data.
    Kind,
    /// What fills a stream.
    Content,
    /// The mode in which an application is carried.
    Form,
}

// The words of a set.
fn words(choice: Choice) -> &'static [&'static str]
    ensures words { map (λ word. word.now) result.now ≡ names choice }
    ensures in_range { length result.now ≤ 4 }
{
    match choice {
        Choice::Version => &["1", "2"],
        Choice::Carry => &["plain", "pft"],
        Choice::Mode => &["A", "B", "C", "D"],
        Choice::Depth => &["long", "short"],
        Choice::Kind => &["audio", "data"],
        Choice::Content => &["fill", "file"],
        Choice::Form => &["sync", "packet"],
    }
}

/// The place of a word in its set, from 0.
pub(crate) fn place(choice: Choice, word: &str) -> Option<u8>
    ensures { result ≡ place_from 0 (names choice) word.now }
{
    let words = words(choice);
    for k in 0..words.len() {
        if word == words[k] {
            return Some(k as u8);
        }
    }
    None
}

/// The word at a place of a set, and none behind its end.
pub(crate) fn name(choice: Choice, place: u8) -> &'static str
    ensures { result.now ≡ get_or (names choice) place [] }
{
    match words(choice).get(usize::from(place)) {
        Some(word) => word,
        None => "",
    }
}
