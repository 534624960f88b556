//! What every command answers.

ghost use Rattle.std.specs.Prelude.{◌≡◌, IfOk, IfErr, IfSome, IsUtf8};
ghost use Rattle.cli_syntax.specs.Gives.{ParserGives};
ghost use Rattle.drm_words.specs.Table.{HasTextNames};
ghost use Rattle.cli_syntax.specs.declared.fault.WordsFault.TheVariants as faults;

use crate::request::Request;
use cli_syntax::WordsFault;
use drm_bits::Octets;
use std::alloc::Global;

pub(crate) fn octets(alloc: Global, text: &str) -> Result<Octets, WordsFault>
    ensures ok { IfOk result (λ octets. octets ≡ text.now) }
    ensures text { IfOk result IsUtf8 }
    ensures err { IfErr result (λ fault. fault ≡ faults.NoMemory) }
{
    let octets = Octets::from_slice(alloc, text.as_bytes())?;
    Ok(octets)
}

// A request that no option or number refuses.
pub(crate) fn asked(request: Option<Request>) -> Result<Request, WordsFault>
    requires { IfSome request HasTextNames }
    ensures gives { ParserGives result request }
    ensures text { IfOk result HasTextNames }
{
    match request {
        Some(request) => Ok(request),
        None => Err(WordsFault::Words),
    }
}
