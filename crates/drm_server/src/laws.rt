//! Laws of packets and datagrams, each on a function that does nothing.

ghost use Rattle.drm_server.specs.Laws.{HasOneFrame, HasOnePacket, HasOneDelivery, FirstOnesArePrefix, HasOneCapture, HasMultiplexFrame};

use dcp_pft::one_fragment;

/// What a frame is made of is determined by the schedule.
pub fn one_frame()
    ensures { HasOneFrame }
{}

/// The packet of a frame is determined by the schedule.
pub fn one_packet()
    ensures { HasOnePacket }
{}

/// The datagrams of a schedule from a frame on are determined by it.
pub fn one_delivery()
    ensures { HasOneDelivery }
{
    // For its clause alone: a fragment is one datagram.
    one_fragment();
}

/// The datagrams that stand before one of these are the front of all of them, and it is the next one.
pub fn first_ones_are_prefix()
    ensures { FirstOnesArePrefix }
{
    // For its clause alone, as above.
    one_fragment();
}

/// What is written of a schedule is determined by it.
pub fn one_capture()
    ensures { HasOneCapture }
{
    // For its clause alone, as above.
    one_fragment();
}

/// The streams of a frame make its multiplex frame: the parts A of all of them, then their parts B.
pub fn streams_make_the_multiplex_frame()
    ensures { HasMultiplexFrame }
{}
