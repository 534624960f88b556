//! What is wrong with a plan or its text.

/// Why a text is no schedule.
#[derive(Clone, Copy, Debug, PartialEq, Eq)]
pub enum Reason {
    /// A byte is wrong in UTF-8.
    Utf8,
    /// A word is none of those that can stand there, or there are too many or too few.
    Word,
    /// A word isn't the number, or the bytes, that it has to be.
    Number,
    /// A number is outside its range, or a text has a wrong length.
    Range,
    /// A line is missing.
    Missing,
    /// A line stands twice.
    Twice,
    /// A line stands in a wrong place, or a configuration starts at a wrong one.
    Order,
    /// The countdown is wrong for the place of its configuration.
    Countdown,
    /// A block of lines begins at a wrong super frame of its configuration.
    Block,
    /// The services, and the entities and streams that belong to them, don't agree.
    Services,
    /// The mode has no such spectrum occupancy.
    Occupancy,
    /// The constellation is a hierarchical one.
    Hierarchical,
    /// A block has no room for what it has to tell.
    Fit,
    /// A file ends before its configuration does.
    ContentShort,
    /// A packet is too long.
    PacketSize,
    /// There is more than the limit allows.
    TooLong,
}

/// The line of a configuration that is at fault.
#[derive(Clone, Copy, Debug, PartialEq, Eq)]
pub enum Place {
    /// The line with which it begins.
    Config,
    /// The line of the block with this number, from 0.
    Block(usize),
    /// The line of the occupancy.
    Occupancy,
    /// The line of the constellation of the Main Service Channel.
    Msc,
    /// The line of the stream with this number, from 0.
    Stream(usize),
}

/// The first fault of a plan that isn't valid.
#[derive(Clone, Copy, Debug, PartialEq, Eq)]
pub struct Invalid {
    /// The number of the configuration, from 0.
    pub config: usize,
    pub place: Place,
    pub reason: Reason,
}
