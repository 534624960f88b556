//! The versions of a text.

ghost use Rattle.std.specs.Prelude.{◌≡◌};
ghost use Rattle.plan_grammar.specs.Says.{number_of};

/// The version of a text, which says where the entities of a configuration stand.
#[derive(Clone, Copy, Debug, PartialEq, Eq)]
pub enum Version {
    /// Among the other lines of the configuration. They hold from its start on.
    One,
    /// Behind the other lines, in blocks, each of which holds from a super frame on.
    Two,
}

impl Version {
    /// Its number, by which the rows of the table name it.
    pub fn number(self) -> u8
        ensures { result ≡ number_of self }
    {
        match self {
            Version::One => 1,
            Version::Two => 2,
        }
    }
}
