//! A check value beside the bytes that it is for.

ghost use Rattle.std.specs.Prelude.{◌≡◌, length, OnOk, IfErr};
ghost use Rattle.std.specs.Int.{w16, from_be_bytes};
ghost use Rattle.drm_bits.specs.Crc.{IsCheckOf};
ghost use Rattle.drm_bits.specs.Compared.{IsWrongCheck};

use crate::crc16;

/// The check value that stands there isn't that of the bytes.
#[derive(Clone, Copy, Debug, PartialEq, Eq)]
pub struct WrongCheck {
    /// The number that stands there.
    pub stands: u16,
    /// The check value.
    pub computed: u16,
}

/// Whether these two bytes are the check value of the other ones.
/// Example: `compare_crc16(b"123456789", &[0xd6, 0x4e])` is `Ok(())`.
pub fn compare_crc16(bytes: &[u8], check: &[u8]) -> Result<(), WrongCheck>
    requires { length check.now ≡ 2 }
    ensures right { OnOk result (IsCheckOf bytes.now (from_be_bytes w16 check.now)) }
    ensures wrong { IfErr result (λ w. IsWrongCheck w bytes.now check.now) }
{
    let stands = u16::from_be_bytes([check[0], check[1]]);
    let computed = crc16(bytes);
    if stands == computed {
        Ok(())
    } else {
        Err(WrongCheck { stands, computed })
    }
}
