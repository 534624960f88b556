//! The laws of cutting and reading, each on a function that does nothing.

ghost use Rattle.dcp_pft.specs.Laws.{ChunksAgree, AllTaken, AnyMayBeLost, OneFragment, NoneIsEmpty, ReadAsWritten, DatagramsHaveTheirSize};

/// A receiver counts the chunks that the sender made.
pub fn chunks_agree()
    ensures { ChunksAgree }
{}

/// What is written passes no limit of a reader.
pub fn all_taken()
    ensures { AllTaken }
{}

/// As many datagrams as a packet was cut for may be lost, whichever they are.
pub fn any_may_be_lost()
    ensures { AnyMayBeLost }
{}

/// A packet's fragment is one datagram.
pub fn one_fragment()
    ensures { OneFragment }
{}

/// Each fragment carries a byte at least, the last one too.
pub fn none_is_empty()
    ensures { NoneIsEmpty }
{}

/// The bytes that are counted for a datagram are those that it has.
pub fn datagrams_have_their_size()
    ensures { DatagramsHaveTheirSize }
{}

/// A fragment that was written is read, as it was written.
pub fn read_as_written()
    ensures { ReadAsWritten }
{}
