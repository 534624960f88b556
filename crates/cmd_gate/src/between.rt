//! A group of links that is heard and sent over: it is opened, a gateway runs over it, and it is closed.

ghost use Rattle.std.specs.Prelude.{◌≡◌, IsErr, IfOk, length};
ghost use Rattle.drm_links.specs.Known.{KnownThrough};
ghost use Rattle.cmd_faults.specs.Causes.{OpeningFailed};
ghost use Rattle.cmd_gate.specs.Between.{IsSetUp, RelaysOverLinks, options_of, passed_of};

use drm_bits::NoMemory;
use drm_gate::{Gate, GateEnded, GateOptions, Tally, pass_over_group};
use drm_links::{Address, Addresses, Dock, GatheredGroup, LinkFault};
use recv_reading::ReceiveOptions;
use std::alloc::Global;

// Opens a link that receives at the one address and links that send to the others, passes on what comes, and closes what was
// opened. The gateway is new, and goes by these rules.
pub(crate) fn pass_between<D: Dock>(
    alloc: Global,
    gate: &mut Gate,
    rules: &ReceiveOptions,
    from: Address,
    to: &Addresses,
    buffer: &mut [u8],
    dock: &mut D,
) -> Result<Result<Tally, LinkFault>, NoMemory>
    requires { IsSetUp gate.old rules.now to.now (length buffer.old) }
    ensures passes_on { IfOk result (λ passed. KnownThrough (D.known dock.old) (D.known dock.new)
        (RelaysOverLinks rules.now gate.old.carry from to.now passed)) }
    ensures cause { IfOk result (λ passed. OpeningFailed (D.known dock.old) (D.known dock.new) (IsErr passed)) }
    ensures untouched { IsErr result → dock.new ≡ dock.old }
{
    match dock.gather(alloc, Some(from), to) {
        GatheredGroup::Group(mut group) => {
            let ended = pass_over_group(gate, &mut group, &options(rules), buffer);
            dock.disband(Some(from), to, group);
            Ok(passed(ended))
        }
        GatheredGroup::Failed => Ok(Err(LinkFault)),
        GatheredGroup::NoMemory => Err(NoMemory),
    }
}

fn options(rules: &ReceiveOptions) -> GateOptions
    ensures { result ≡ options_of rules.now }
{
    GateOptions {
        frames: rules.frames,
        idle: rules.idle,
        limit: rules.limit,
    }
}

fn passed(ended: GateEnded) -> Result<Tally, LinkFault>
    ensures { result ≡ passed_of ended }
{
    match ended {
        GateEnded::Done(tally) => Ok(tally),
        GateEnded::SomeFailed | GateEnded::FromFailed | GateEnded::ToFailed => Err(LinkFault),
    }
}
