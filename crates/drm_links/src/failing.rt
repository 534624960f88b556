//! Which calls of a form in memory are to fail.

ghost use Rattle.std.specs.Prelude.{Contains, MatchBool};

/// Whether the call with this number is to fail.
pub fn is_listed(failing: &[u64], call: u64) -> bool
    ensures { MatchBool result (Contains failing.now call) (Contains failing.now call → ⊥) }
{
    failing.contains(&call)
}
