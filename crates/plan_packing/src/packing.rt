//! How the entities of an announcement are packed into super frames.

ghost use Rattle.std.specs.Prelude.{◌≡◌, ◌+◌, length};
ghost use Rattle.plan_packing.specs.Packing.{placed};
ghost use Rattle.plan_packing.specs.Packing as packing;

/// Up to where an announcement is packed.
#[derive(Clone, Copy, Debug, PartialEq, Eq)]
pub struct Spot {
    /// The super frame of the last entity, counted from the first of the countdown.
    pub frame: usize,
    /// How many bytes of that super frame are taken, of those that were free.
    pub taken: u16,
}

impl Spot {
    /// Nothing is packed yet.
    pub fn front() -> Spot
        ensures { result ≡ packing.front }
    {
        Spot { frame: 0, taken: 0 }
    }

    /// Packs one entity more, of this size, into super frames with so many free bytes each: where it stands then, or
    /// `None` where it can't be packed.
    /// Example: `Spot::front().place(&[3, 9], 4)` is `Some(Spot { frame: 1, taken: 4 })`.
    pub fn place(self, free: &[u16], size: u16) -> Option<Spot>
        ensures { result ≡ placed free.now self size }
    {
        let mut frame = self.frame;
        let mut taken = self.taken;
        let mut left = free.get(frame..)?;
        while let [room, more @ ..] = left {
            if u32::from(taken) + u32::from(size) <= u32::from(*room) {
                let taken = taken + size;
                return Some(Spot { frame, taken });
            }
            frame += 1;
            taken = 0;
            left = more;
        }
        None
    }
}

/// Whether entities of these sizes can be packed, in this order, into super frames with so many free bytes each.
/// Example: `can_be_packed(&[8, 8], &[5, 4, 4])` is `true`, with `&[7, 7]` it is `false`.
pub fn can_be_packed(free: &[u16], sizes: &[u16]) -> bool
    ensures { result ≡ packing.can_be_packed free.now sizes.now }
{
    let mut spot = Spot::front();
    let mut left = sizes;
    while let [size, more @ ..] = left {
        match spot.place(free, *size) {
            None => return false,
            Some(next) => spot = next,
        }
        left = more;
    }
    true
}
