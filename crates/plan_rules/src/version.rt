//! What the version of a text tells.

ghost use Rattle.std.specs.Prelude.{◌≡◌};
ghost use Rattle.plan_rules.specs.Rules.{is_one, is_two};

use plan_lines::Version;

/// The first line was read, and says that the text is of version 1.
pub fn is_one(version: Option<Version>) -> bool
    ensures { result ≡ is_one version }
{
    matches!(version, Some(Version::One))
}

/// The first line was read, and says that the text is of version 2.
pub fn is_two(version: Option<Version>) -> bool
    ensures { result ≡ is_two version }
{
    matches!(version, Some(Version::Two))
}
