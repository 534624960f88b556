//! Lists of stream numbers.

ghost use Rattle.std.specs.Prelude.{◌≡◌, map};
ghost use Rattle.cli_syntax.specs.Streams.{live_from, live_of};
ghost use Rattle.cli_syntax.specs.Gives.{ParserGives};

use crate::cuts::parts;
use crate::fault::WordsFault;
use crate::numbers::within;
use drm_schedule::Live;
use std::alloc::Global;

// The streams whose numbers these texts are, from the least on and rising.
fn live_from(least: u64, parts: &[&str]) -> Option<Live>
    ensures { result ≡ live_from least (map (λ part. part.now) parts.now) }
{
    let Some((part, others)) = parts.split_first() else {
        return Some(Live::none());
    };
    let k = within(part, least, 3)?;
    let mut live = live_from(k + 1, others)?;
    live.streams[k as usize] = true;
    Some(live)
}

/// The streams whose numbers a text spells, joined by commas and rising.
#[tactic(auto, unfolding(crate::specs::Streams::live_of))]
pub fn read_live(alloc: Global, text: &str) -> Result<Live, WordsFault>
    ensures { ParserGives result (live_of text.now) }
{
    let parts = parts(alloc, text)?;
    match live_from(0, &parts) {
        Some(live) => Ok(live),
        None => Err(WordsFault::Words),
    }
}
