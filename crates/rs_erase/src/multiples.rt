//! Tables of multiples of what remains of single powers.

/// For each of four powers, from the highest down, rows of 48 with the highest coefficient first: what remains of it times the
/// elements 0 to 15, and then times these times 16.
pub struct Multiples {
    /// Has the rows begin where whole vectors do.
    pub aligned: [u128; 0],
    pub bytes: [u8; 6144],
}
