//! Numbers that are told or not.

ghost use Rattle.std.specs.Prelude.{◌≡◌, ◌≤◌, IfSome, option_map};
ghost use Rattle.cli_paths.specs.Asking.{number_or, number_or_none};

use cli_syntax::within;

/// The number of an option in its range, or its default where it isn't told.
pub(crate) fn number_or(default: u64, least: u64, greatest: u64, value: Option<&str>) -> Option<u64>
    requires { default ≤ greatest }
    ensures value { result ≡ number_or default least greatest (option_map (λ text. text.now) value.entry) }
    ensures bound { IfSome result (λ n. n ≤ greatest) }
{
    match value {
        Some(text) => within(text, least, greatest),
        None => Some(default),
    }
}

/// The number of an option in its range, or none where it isn't told.
pub(crate) fn number_or_none(least: u64, greatest: u64, value: Option<&str>) -> Option<Option<u64>>
    ensures value { result ≡ number_or_none least greatest (option_map (λ text. text.now) value.entry) }
    ensures bound { IfSome result (λ o. IfSome o (λ n. n ≤ greatest)) }
{
    let Some(text) = value else {
        return Some(None);
    };
    let number = within(text, least, greatest)?;
    Some(Some(number))
}
