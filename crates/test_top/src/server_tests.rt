//! A server that is asked for its frames out of turn.

use drm_server::Server;
use std::alloc::Global;
use test_support::{SMALL, schedule};

// The frame, the bytes of its packet, its fragments, and the ends of its first one's header.
type Load = (u32, usize, u32, [u8; 5]);

const LOADS: &[Load] = &[
    (2, 90, 9, [0, 2, 0, 0, 0]),
    (0, 110, 10, [0, 0, 0, 0, 0]),
    (1, 90, 9, [0, 1, 0, 0, 0]),
    (1, 90, 9, [0, 1, 0, 0, 0]),
    (0, 110, 10, [0, 0, 0, 0, 0]),
];

fn begins(datagram: &[u8], numbers: &[u8; 5]) -> bool {
    datagram.len() == 32 && datagram.get(2..7) == Some(numbers.as_slice())
}

fn loads(server: &mut Server<'_>, load: &Load) -> bool {
    let (t, length, fragments, numbers) = *load;
    if t >= server.frames() {
        return false;
    }
    server.load(t);
    if server.packet().len() != length || server.fragments() != fragments || fragments == 0 {
        return false;
    }
    // What is lent leaves the packet as it was.
    begins(server.datagram(0), &numbers) && server.packet().len() == length
}

// How many rows hold before the first that doesn't.
fn loaded(server: &mut Server<'_>) -> usize {
    for (k, load) in LOADS.iter().enumerate() {
        if !loads(server, load) {
            return k;
        }
    }
    LOADS.len()
}

fn loads_all(alloc: Global) -> usize {
    let Ok(schedule) = schedule(alloc, SMALL, &[]) else {
        return 0;
    };
    match Server::make(alloc, &schedule) {
        Ok(mut server) => {
            if server.frames() == 3 {
                loaded(&mut server)
            } else {
                0
            }
        }
        Err(_) => 0,
    }
}

#[test]
fn loads_frames_in_any_order(rt: HostRuntime) {
    let rows = loads_all(rt.alloc());
    assert!(rt; rows == 5, "row {rows}");
}
