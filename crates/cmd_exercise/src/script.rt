//! What is delivered in an exercise.

ghost use Rattle.std.specs.Prelude.{◌≡◌, ◌≤◌, ◌<◌, ◌++◌, ◌∷◌, [], IfOk, OnOk};
ghost use Rattle.plan_script.specs.Script.{fragment_count};
ghost use Rattle.drm_timeline.specs.Numbers.{frame_count as frames};
ghost use Rattle.cmd_exercise.specs.Exercise as exercise;

use dcp_pft::{cut_for, datagrams};
use drm_bits::NoMemory;
use drm_schedule::{OwnedList, Schedule};
use drm_timeline::{frame_count, packet_len};
use plan_script::{Delivery, Script};
use std::alloc::Global;

/// The script of the exercise of this size: each packet in its order, its fragments from the last to the first, each
/// twice, but two of them.
pub(crate) fn script_of(alloc: Global, n: u32, plan: &Schedule) -> Result<Script, NoMemory>
    requires at_least_one { 1 ≤ n }
    requires within_limit { n ≤ 1000 }
    requires plan { plan.now ≡ exercise.plan n }
    ensures { IfOk result (λ script. script ≡ exercise.deliveries n ∷ []) }
{
    let mut feed = OwnedList::new(alloc);
    for packet in 0..frame_count(plan) {
        deliver(&mut feed, n, packet, fragments(plan, packet))?;
    }
    Script::of_feed(alloc, feed)
}

// How many fragments a packet has.
fn fragments(plan: &Schedule, packet: u32) -> u32
    requires { packet < frames plan.now }
    ensures { result ≡ fragment_count plan.now packet }
{
    // For its clause alone: the schedule is valid.
    plan.always_valid();
    datagrams(cut_for(plan.carry(), packet_len(plan, packet)))
}

// Delivers the fragments of a packet.
fn deliver(feed: &mut OwnedList<Delivery>, n: u32, packet: u32, count: u32) -> Result<(), NoMemory>
    requires size { n ≤ 1000 }
    requires packet { packet < 3000 }
    ensures { OnOk result (feed.new ≡ feed.old ++ exercise.of_packet n packet count) }
{
    let mut left = count;
    while left > 0 {
        left -= 1;
        if is_left_out(n, packet, count, left) {
            continue;
        }
        let delivery = Delivery {
            packet,
            fragment: left,
        };
        feed.push(delivery)?;
        feed.push(delivery)?;
    }
    Ok(())
}

// Whether a fragment isn't delivered: at most two of a packet aren't, as many as may be lost.
fn is_left_out(n: u32, packet: u32, count: u32, fragment: u32) -> bool
    requires size { n ≤ 1000 }
    requires packet { packet < 3000 }
    requires count { 1 ≤ count }
    ensures { result ≡ exercise.is_left_out n packet count fragment }
{
    fragment == (7 * packet + n) % count || fragment == (11 * packet + 3 * n) % count
}
