//! The laws of captures, each on a function that does nothing.

ghost use Rattle.capture_reader.specs.Laws.{OneFront, FrontsStay, ReadOneWay, ReadSomeWay, WalksCaptures};

/// Bytes begin in one way.
pub fn one_front()
    ensures { OneFront }
{}

/// A packet stays whatever comes behind it, and so does what is wrong.
pub fn fronts_stay()
    ensures { FrontsStay }
{}

/// Bytes are read in one way.
pub fn read_one_way()
    ensures { ReadOneWay }
{}

/// Any bytes are read in some way.
pub fn read_some_way()
    ensures { ReadSomeWay }
{}

/// However a capture is put into a walker, its packets and its fault are given.
pub fn walks_captures()
    ensures { WalksCaptures }
{}
