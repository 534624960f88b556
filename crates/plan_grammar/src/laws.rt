//! The laws of lines.

ghost use Rattle.plan_grammar.specs.Law.{AreSaidAgain, SayWhatFits, SayTheirKeyword};

/// What a line can say is read again from its canonical line; and what a line of UTF-8 says is
/// what a line can say, and of the keyword of the line.
pub fn lines_are_said_again()
    ensures again { AreSaidAgain }
    ensures fits { SayWhatFits }
    ensures keyword { SayTheirKeyword }
{}
