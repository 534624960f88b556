//! The line of `agree`.

ghost use Rattle.std.specs.Prelude.{◌≡◌, ◌++◌, OnOk, IfOk, decimal};
ghost use Rattle.cmd_agree.specs.Run.{agree_line, IsAgreeLine};

use crate::pair::SchedulePair;
use drm_bits::NoMemory;
use drm_compare::agreement;
use itoa::Buffer;
use std::alloc::{AllocError, Global};

// Words, and a number in decimal behind them.
fn put(line: &mut Vec<u8>, words: &str, n: u32) -> Result<(), AllocError>
    ensures { OnOk result (line.new.items ≡ line.old.items ++ (words.now ++ decimal n)) }
{
    line.extend_from_slice(words.as_bytes())?;
    line.extend_from_slice(Buffer::new().format(n).as_bytes())
}

fn write_line(alloc: Global, n: u32, length: u32, other: u32) -> Result<Vec<u8>, NoMemory>
    ensures { IfOk result (λ line. line.items ≡ agree_line n length other) }
{
    let mut line = Vec::new(alloc);
    put(&mut line, "agree ", n)?;
    put(&mut line, " of ", length)?;
    put(&mut line, " and ", other)?;
    line.extend_from_slice(b"\n")?;
    Ok(line)
}

/// The line of two schedules.
pub(crate) fn line_of(alloc: Global, pair: &SchedulePair) -> Result<Vec<u8>, NoMemory>
    ensures { IfOk result (λ line. IsAgreeLine pair.now line.items) }
{
    let n = agreement(alloc, &pair.first, &pair.second)?;
    write_line(alloc, n, pair.first.length(), pair.second.length())
}
