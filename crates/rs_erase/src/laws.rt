//! The laws of the code, each on a function that does nothing.

ghost use Rattle.rs_erase.specs.Laws.{CodeWordsHaveTheRoots, CodeWordOrNone, OneCodeWord, OneParity};

/// A word is a code word exactly where its values at the 48 roots of the generator are 0.
pub fn code_words_have_the_roots()
    ensures { CodeWordsHaveTheRoots }
{}

/// Two code words that agree outside at most 48 places are one.
pub fn one_code_word()
    ensures { OneCodeWord }
{}

/// A chunk has one parity.
pub fn one_parity()
    ensures { OneParity }
{}

/// Whether a code word agrees with a word outside at most 48 places can be told.
pub fn code_word_or_none()
    ensures { CodeWordOrNone }
{}
