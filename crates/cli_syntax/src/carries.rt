//! How packets are to be carried, in one word.

ghost use Rattle.std.specs.Prelude.{◌≡◌};
ghost use Rattle.cli_syntax.specs.Addressing.{pft_of, carry_of};

use crate::cuts::cut;
use crate::numbers::within;
use dcp_pft::{LEAST_FRAGMENT, MOST_FRAGMENT, MOST_LOSSES};
use drm_schedule::Carry;

// M:MTU.
#[tactic(auto, unfolding(crate::specs::Addressing::pft_of))]
fn pft(text: &str) -> Option<Carry>
    ensures { result ≡ pft_of text.now }
{
    let (m, mtu) = cut(text, ':')?;
    let m = within(m, 0, u64::from(MOST_LOSSES))? as u8;
    let mtu = within(mtu, LEAST_FRAGMENT as u64, MOST_FRAGMENT as u64)? as u16;
    Some(Carry::Pft { m, mtu })
}

/// What `plain` or `pft:M:MTU` says.
/// Example: `carry("pft:2:1400")` is `Some(Carry::Pft { m: 2, mtu: 1400 })`.
#[tactic(auto, unfolding(crate::specs::Addressing::carry_of))]
pub fn carry(text: &str) -> Option<Carry>
    ensures { result ≡ carry_of text.now }
{
    if text == "plain" {
        return Some(Carry::Plain);
    }
    let (kind, rest) = cut(text, ':')?;
    if kind == "pft" { pft(rest) } else { None }
}
