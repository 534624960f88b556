//! The laws of joining pieces, each on a function that does nothing.

ghost use Rattle.law_text.specs.Laws.{RunsByCalls, JoinsMessages, AnswersEachPiece, OneList, GivesWholeMessages};

/// What a joiner's calls say one after another is its run.
pub fn runs_by_calls()
    ensures { RunsByCalls }
{}

/// Of every reading the messages that are in it are given, and no others.
pub fn joins_messages()
    ensures { JoinsMessages }
{}

/// At each place of every reading a message is given exactly where one ends there.
pub fn answers_each()
    ensures { AnswersEachPiece }
{}

/// The pieces of a message are one list.
pub fn one_list()
    ensures { OneList }
{}

/// Of messages whose pieces come with losses those are given that are whole.
pub fn gives_what_is_whole()
    ensures { GivesWholeMessages }
{}
