//! What may stand in one place of a command line.

use std::fmt::{self, Display, Formatter};

/// What one word may be.
#[derive(Clone, Copy, Drop)]
pub enum Value {
    /// The name of a file.
    Name,
    /// An address.
    Address,
    /// So many different addresses, joined by commas.
    Addresses { least: usize, most: usize },
    /// How packets are carried.
    Carry,
    /// Streams of a schedule.
    Streams,
    /// A number in this range.
    Number { least: u64, most: u64 },
}

impl Display for Value {
    fn fmt<W: fmt::Write>(&self, f: &mut Formatter<W>) -> fmt::Result {
        match *self {
            Value::Name => write!(f, "the name of a file"),
            Value::Address => {
                write!(
                    f,
                    "an address is four numbers and a port, as 192.0.2.7:5000"
                )
            }
            Value::Addresses { least, most } => write!(
                f,
                "an address is four numbers and a port, as 192.0.2.7:5000; {least} to {most} of them, all different, are joined by commas"
            ),
            Value::Carry => write!(
                f,
                "packets are carried plain, or pft:M:MTU with M 0 to 5 and MTU 128 to 1500, as pft:2:1400"
            ),
            Value::Streams => write!(
                f,
                "streams are numbers from 0 to 3, rising, joined by commas"
            ),
            Value::Number { least, most } => write!(f, "a number from {least} to {most}"),
        }
    }
}

/// What stands in one place, and what it is called.
#[derive(Clone, Copy, Drop)]
pub struct Allowed {
    pub name: &'static str,
    pub value: Value,
}
