//! The command `gate`.

ghost use Rattle.std.specs.Prelude.{◌≡◌, Err};
ghost use Rattle.dcp_pft.specs.Carrying.{CarryFits};
ghost use Rattle.drm_links.specs.Known.{HasCause};
ghost use Rattle.recv_reading.specs.Options.{AreInRange};
ghost use Rattle.drm_links.specs.Listed.{AreListed};
ghost use Rattle.cmd_gate.specs.Run.{GateCommandRun, WritesTally};

use crate::between::pass_between;
use crate::line::{is_clean, write_tally};
use cmd_faults::Fault;
use dcp_pft::Carry;
use drm_bits::zeros;
use drm_gate::{Gate, Tally};
use drm_links::{Address, Addresses, Dock, LONGEST_DATAGRAM, LinkFault, Sink};
use recv_reading::ReceiveOptions;
use std::alloc::Global;

/// Opens a link that receives at `from` and links that send to the addresses in `to`, sends over these what comes over the first, each
/// packet under the carry as soon as it is given, and closes all of them. A link that fails ends no other. Writes what was counted to
/// `out`, and answers whether each packet was sent. All memory is taken before the first opening.
pub fn gate<D: Dock, O: Sink>(
    alloc: Global,
    rules: &ReceiveOptions,
    carry: Carry,
    from: Address,
    to: &Addresses,
    dock: &mut D,
    out: &mut O,
) -> Result<bool, Fault>
    requires rules { AreInRange rules.now }
    requires carry { CarryFits carry }
    requires listed { AreListed to.now }
    ensures { GateCommandRun rules.now carry from to.now result D.known dock.old dock.new O.known out.old out.new }
{
    let mut gate = Gate::make(alloc, rules.window, rules.reach, rules.first, carry)?;
    let mut buffer = zeros(alloc, LONGEST_DATAGRAM)?;
    let passed = pass_between(alloc, &mut gate, rules, from, to, &mut buffer, dock)?;
    write_passed(out, passed)
}

// Writes the line of what was counted, unless a link failed.
fn write_passed<O: Sink>(out: &mut O, passed: Result<Tally, LinkFault>) -> Result<bool, Fault>
    ensures writes { WritesTally passed result O.known out.old out.new }
    ensures cause { HasCause (O.known out.old) (O.known out.new) (result ≡ Err Fault.Write) }
{
    let tally = passed?;
    write_tally(out, &tally)?;
    Ok(is_clean(&tally))
}
