//! The payloads of a packet without a code, put together where they stand.

ghost use Rattle.std.specs.Prelude.{◌≡◌, ◌+◌, ◌*◌, ◌≤◌, ◌++◌, length, take, drop};
ghost use Rattle.dcp_collect.specs.Slots.{joined_to, AreJoinable};
ghost use Rattle.dcp_collect.specs.Sizes.{most_bytes};
ghost use Rattle.dcp_collect.specs.Counters.{IsEarlier};

use crate::form::Form;
use crate::sizes::MOST_BYTES;

// Puts the payloads of all fragments of a packet without a code one after another to the front, and answers how many bytes
// they have.
pub(crate) fn join(bytes: &mut [u8], form: Form) -> usize
    requires { AreJoinable form bytes.old }
    ensures joined { take result bytes.new ≡ joined_to form bytes.old form.count }
    ensures within_limit { result ≤ most_bytes }
    ensures same_length { length bytes.new ≡ length bytes.old }
{
    let room = MOST_BYTES / form.count as usize;
    let mut end = 0;
    for index in 0..form.count {
        let len = usize::from(form.head(index).len);
        shift(bytes, index as usize * room, len, end);
        end += len;
    }
    end
}

// Moves so many bytes to an earlier place.
fn shift(bytes: &mut [u8], from: usize, len: usize, to: usize)
    requires { IsEarlier from len to bytes.old }
    ensures { bytes.new ≡ take to bytes.old ++ take len (drop from bytes.old) ++ drop (to + len) bytes.old }
{
    // The first one stands there already, and a whole packet is the first one.
    if from != to {
        bytes.copy_within(from..from + len, to);
    }
}
