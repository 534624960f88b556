//! The three packets of the small trial schedule, and what is printed of them.

ghost use Rattle.std.specs.Prelude.{OnOk};
ghost use Rattle.drm_links.specs.MemoryLink.{IsUntouchedLink};

use drm_bits::NoMemory;
use drm_links::{LONGEST_DATAGRAM, MemLink};
use std::alloc::{AllocError, Global};

/// The packets, whole.
// Packed and checked by a program in Python.
pub(crate) const PACKETS: [&[u8]; 3] = [
    b"AF\x00\x00\x00\x62\x00\x00\x90T*ptr\x00\x00\x00\x40DMDI\x00\x00\x00\x00dlfc\x00\x00\x00\x20\x00\x00\x00\x00fac_\x00\x00\x00\x48\x66\x08\x01\x23\x45\x60\xa1\x80\x6dsdci\x00\x00\x00\x20\x01\x00\x00\x04robm\x00\x00\x00\x08\x01sdc_\x00\x00\x00\x5c\x00\x60\x10\x00\x00\x40\x49\x02\x30\x06\xbe\x60str0\x00\x00\x00\x20\x55\x55\x55\x55\xf9\x59",
    b"AF\x00\x00\x00\x4e\x00\x01\x90T*ptr\x00\x00\x00\x40DMDI\x00\x00\x00\x00dlfc\x00\x00\x00\x20\x00\x00\x00\x01fac_\x00\x00\x00\x48\x26\x08\x01\x23\x45\x60\xa1\x80\x33sdci\x00\x00\x00\x20\x01\x00\x00\x04robm\x00\x00\x00\x08\x01str0\x00\x00\x00\x20\x55\x55\x55\x55\x87\x85",
    b"AF\x00\x00\x00\x4e\x00\x02\x90T*ptr\x00\x00\x00\x40DMDI\x00\x00\x00\x00dlfc\x00\x00\x00\x20\x00\x00\x00\x02fac_\x00\x00\x00\x48\x46\x08\x01\x23\x45\x60\xa1\x80\x42sdci\x00\x00\x00\x20\x01\x00\x00\x04robm\x00\x00\x00\x08\x01str0\x00\x00\x00\x20\x55\x55\x55\x55\x10\x9f",
];

// What a receiver of them prints behind its first line.
const FRAMES: &[u8] =
    b"frame 0 dlfc 0 mode B fac 660801234560a1806d sdc 00601000004049023006be6 mux 01000004 msc 55555555
frame 1 dlfc 1 mode B fac 260801234560a18033 sdc - mux 01000004 msc 55555555
frame 2 dlfc 2 mode B fac 460801234560a18042 sdc - mux 01000004 msc 55555555
end frames given 3 missing 0 bad 0 refused 0
";

// The first line of each report.
const FEEDS: [&[u8]; 16] = [
    b"feed 1\n",
    b"feed 2\n",
    b"feed 3\n",
    b"feed 4\n",
    b"feed 5\n",
    b"feed 6\n",
    b"feed 7\n",
    b"feed 8\n",
    b"feed 9\n",
    b"feed 10\n",
    b"feed 11\n",
    b"feed 12\n",
    b"feed 13\n",
    b"feed 14\n",
    b"feed 15\n",
    b"feed 16\n",
];

/// What so many receivers print, up to sixteen, if each gets all packets and was asked for three frames.
pub fn reports(alloc: Global, receivers: usize) -> Result<Vec<u8>, AllocError> {
    let mut all = Vec::new(alloc);
    for (k, feed) in FEEDS.iter().enumerate() {
        if k < receivers {
            all.extend_from_slice(feed)?;
            all.extend_from_slice(FRAMES)?;
        }
    }
    Ok(all)
}

/// Packets for the link to bring, one after another.
pub(crate) fn bring(alloc: Global, link: &mut MemLink, packets: &[&[u8]]) -> Result<(), NoMemory>
    requires { IsUntouchedLink link.old }
    ensures { OnOk result (IsUntouchedLink link.new) }
{
    for packet in packets {
        if packet.len() <= LONGEST_DATAGRAM {
            link.bring(alloc, packet)?;
        }
    }
    Ok(())
}

/// The words of a command line.
pub fn words_of(alloc: Global, line: &[&str]) -> Result<Vec<String>, AllocError> {
    let mut words = Vec::new(alloc);
    for word in line {
        words.push(String::from_str(alloc, word)?)?;
    }
    Ok(words)
}
