//! A gateway: what comes over one link is sent over others.

ghost use Rattle.std.specs.Prelude.{◌≡◌, ◌≤◌, length, IfOk};
ghost use Rattle.dcp_pft.specs.Carrying.{CarryFits};
ghost use Rattle.dcp_collect.specs.CollectorState.{made};
ghost use Rattle.drm_links.specs.Known.{HasCause};
ghost use Rattle.drm_links.specs.Members.{AreUp};
ghost use Rattle.drm_links.specs.History.{GroupTells};
ghost use Rattle.drm_gate.specs.Gateway.{IsNewGateway, AreGateOptionsInRange, rules_of, AllUp};
ghost use Rattle.drm_gate.specs.Run.{GateRun};
ghost use Rattle.drm_gate.specs.Apart.{LinksTell, ups_of};

use crate::Tally;
use crate::apart::LinksApart;
use crate::reading::pass_on;
use dcp_collect::Collector;
use dcp_pft::Carry;
use dcp_sender::PacketSender;
use drm_bits::NoMemory;
use drm_links::{Group, Link, Member};
use std::alloc::Global;
use std::marker::Model;

/// By what a gateway goes. Each number is at least 1.
#[derive(Clone, Copy, Debug, PartialEq, Eq)]
pub struct GateOptions {
    /// How many frames it passes on, where that is told; at most 3,000,000.
    pub frames: Option<u64>,
    /// How many idle answers in a row end it.
    pub idle: u32,
    /// The most datagrams that it takes.
    pub limit: u32,
}

/// How a gateway ended.
#[derive(Clone, Copy, Debug, PartialEq, Eq)]
pub enum GateEnded {
    /// All that was to be read was passed on, and no link failed. It counts the datagrams of all links together.
    Done(Tally),
    /// All that was to be read was passed on, and some of the links behind the gateway failed.
    SomeFailed,
    /// The link that is read failed.
    FromFailed,
    /// No link behind the gateway was left.
    ToFailed,
}

/// Makes the packets of what comes over a link whole again, and sends each under its carry. All memory is taken when it is made.
#[derive(Drop)]
pub struct Gate {
    collector: Collector,
    sender: PacketSender,
}

impl Model for Gate {
    ghost use Rattle.drm_gate.specs.Gateway.{Gateway};

    ghost Value = { Gateway };

    ghost view = { λ g. record { collector = g.collector; carry = g.sender } };
}

impl Gate {
    /// A new gateway. The window and the reach count packets; `first` is the sequence number of number 0, where it is known.
    pub fn make(
        alloc: Global,
        window: u8,
        reach: u16,
        first: Option<u16>,
        carry: Carry,
    ) -> Result<Gate, NoMemory>
        requires window { (1 ≤ window) × (window ≤ 64) }
        requires carry { CarryFits carry }
        ensures { IfOk result (λ gate. gate ≡ record { collector = made window reach first; carry = carry }) }
    {
        let collector = Collector::make(alloc, window, reach, first)?;
        let sender = PacketSender::make(alloc, carry)?;
        Ok(Gate { collector, sender })
    }
}

/// Hears what comes over a group until it has heard enough, and sends each packet that comes of it over each link that hasn't failed, in
/// their order, before it hears more. It ends at once where no link is left. The gateway is new, and no link has failed. The buffer holds
/// one datagram.
pub fn pass_over_group<G: Group>(
    gate: &mut Gate,
    group: &mut G,
    options: &GateOptions,
    buffer: &mut [u8],
) -> GateEnded
    requires new { IsNewGateway gate.old }
    requires buffer { 65536 ≤ length buffer.old }
    requires options { AreGateOptionsInRange options.now }
    requires links { (1 ≤ length (G.up group.old)) × (length (G.up group.old) ≤ 16) }
    requires up { AllUp (G.up group.old) }
    ensures { GateRun (rules_of gate.old.collector options.now) gate.old.carry
        (G.up group.old) (G.up group.new) (λ events. GroupTells events (G.known group.old) (G.known group.new)) result }
{
    pass_on(
        &mut gate.collector,
        &mut gate.sender,
        group,
        options,
        buffer,
    )
}

/// The same over links that are lent apart: `from` is heard, and what comes of it goes over each of `to` that hasn't failed. No one of
/// them tells in which order it was; there is one order of which each tells what is its own.
pub fn gate_one<L: Link, K: Link>(
    gate: &mut Gate,
    from: &mut L,
    to: &mut [Member<K>],
    options: &GateOptions,
    buffer: &mut [u8],
) -> GateEnded
    requires new { IsNewGateway gate.old }
    requires buffer { 65536 ≤ length buffer.old }
    requires options { AreGateOptionsInRange options.now }
    requires links { (1 ≤ length to.old) × (length to.old ≤ 16) }
    requires up { AreUp to.old }
    ensures ended { GateRun (rules_of gate.old.collector options.now) gate.old.carry
        (ups_of to.old) (ups_of to.new) (LinksTell (L.known from.old) (L.known from.new) K.known to.old to.new) result }
    ensures cause { HasCause (L.known from.old) (L.known from.new) (result ≡ GateEnded.FromFailed) }
{
    pass_on(
        &mut gate.collector,
        &mut gate.sender,
        &mut LinksApart { from, to },
        options,
        buffer,
    )
}
