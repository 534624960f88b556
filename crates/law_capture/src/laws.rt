//! The laws, each on a function that does nothing.

ghost use Rattle.law_capture.specs.Laws.{PacketsInFront};

/// Packets that bytes begin with are the first packets of the capture that the bytes are.
pub fn packets_in_front()
    ensures { PacketsInFront }
{}
