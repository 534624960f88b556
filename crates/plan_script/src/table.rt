//! The lines of a script.

use plan_rows::LineField::{Line, Long};
use plan_rows::{Keyword, LineField};

/// The lines of a script. That the schedule has a packet is asked of what a line says.
pub const TABLE: [LineField; 11] = [
    Line(Keyword::Feed, 1, 1),
    Line(Keyword::Take, 1, 1),
    Long(0, 4_294_967_295),
    Long(0, 4_294_967_295),
    Line(Keyword::Packet, 1, 1),
    Long(0, 4_294_967_295),
    Line(Keyword::Packets, 1, 1),
    Long(0, 4_294_967_295),
    Long(0, 4_294_967_295),
    Line(Keyword::Back, 1, 1),
    Long(0, 4_294_967_295),
];
