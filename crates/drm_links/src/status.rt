//! How a run ends.

/// What the program ends with: 0 where all was done, 7 where the report has a missing or bad line, else a fault's number.
#[derive(Clone, Copy, Debug, PartialEq, Eq)]
pub struct Status {
    pub code: u8,
}
