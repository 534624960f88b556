//! The multiplex description in an entity.

ghost use Rattle.std.specs.Prelude.{◌≡◌, ◌≤◌, ◌+◌, ◌*◌, length};
ghost use Rattle.drm_sdc.specs.Reading.{mux_from};

use crate::Body;
use drm_bits::{Bits, MuxDesc};

pub fn read_description(bits: &mut Bits<'_>, bytes: &[u8]) -> Body
    requires bytes { length bytes.now ≤ 12 }
    requires bits { length bits.old ≡ 4 + 8 * length bytes.now }
    ensures { result ≡ mux_from bits.old bytes.now }
{
    let count = (bytes.len() / 3) as u8;
    Body::Mux {
        desc: MuxDesc::read(bits, count),
    }
}
