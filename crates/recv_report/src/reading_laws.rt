//! The laws of reading a link, each on a function that does nothing.

ghost use Rattle.recv_reading.specs.OneReading.{IsOneReading};
ghost use Rattle.recv_report.specs.OneReport.{IsOneReport};

/// What is read of the answers ahead of a link is one thing.
pub fn one_reading_of_a_link()
    ensures { IsOneReading }
{}

/// What was read has one report.
pub fn one_report()
    ensures { IsOneReport }
{}
