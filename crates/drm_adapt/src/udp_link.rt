//! A UDP socket as a link. It tells nothing of what came and went.

ghost use Rattle.std.specs.Prelude.{◌≡◌, ◌≤◌, None, IfOk, length};

use crate::pace::Pace;
use cli_notices::{Acceptance, Edge, Sends};
use drm_links::{Came, Link, Sent};
use std::io::{self, Eprint, ErrorKind};
use std::net::{SocketAddr, UdpSocket};
use std::thread;
use std::time::{Clock, Duration, Instant};

/// So many milliseconds no datagram comes before a link is idle.
const IDLE_MILLIS: u64 = 100;

/// A link that rests looks for datagrams to drop each time that so many milliseconds are over. It sleeps in between: a sleep
/// ends when it should, where the system makes a long time-out of a socket longer.
const NAP_MILLIS: u64 = 20;

/// So many milliseconds a send waits at most where there are other links, which it would keep waiting.
const SEND_MILLIS: u64 = 20;

/// A link over a socket.
#[derive(Drop)]
pub struct UdpLink<'a, R> {
    edge: &'a Edge<'a, R>,
    socket: UdpSocket,
    /// Where its datagrams go, if it sends any.
    dest: Option<SocketAddr>,
    pace: Pace,
    sends: Sends,
    /// Whether its sends wait for so long at most.
    is_hurried: bool,
    /// Why a call failed, if one has.
    pub(crate) fault: Option<io::Error>,
    pub(crate) faults: u64,
    pub(crate) idles: u64,
}

impl<'a, R: Clock + Eprint> UdpLink<'a, R> {
    /// A link over this socket, which sends to `dest`.
    pub(crate) fn over(
        edge: &'a Edge<'a, R>,
        socket: UdpSocket,
        dest: Option<SocketAddr>,
    ) -> io::Result<Self>
        ensures faults { IfOk result (λ link. link.faults ≡ 0) }
        ensures idles { IfOk result (λ link. link.idles ≡ 0) }
    {
        socket.set_read_timeout(Some(Duration::from_millis(IDLE_MILLIS)))?;
        Ok(UdpLink {
            edge,
            socket,
            dest,
            pace: Pace::new(),
            sends: Sends::new(),
            is_hurried: false,
            fault: None,
            faults: 0,
            idles: 0,
        })
    }

    // Whether nothing came, for a tenth of a second.
    fn is_idle(&self, fault: &io::Error) -> bool {
        if is_network_away(fault) {
            thread::sleep(self.edge.system(), Duration::from_millis(IDLE_MILLIS));
            return true;
        }
        is_quiet(fault)
    }

    // Drops what comes until this moment.
    fn drop_until(&self, end: Instant) -> io::Result<()> {
        self.socket.set_nonblocking(true)?;
        for _ in 0..u64::MAX {
            let left = end.duration_since(Instant::now(self.edge.system())?);
            if left.is_zero() {
                break;
            }
            if recv_from(&self.socket, &mut [0; 1]).is_err() {
                thread::sleep(
                    self.edge.system(),
                    left.min(Duration::from_millis(NAP_MILLIS)),
                );
            }
        }
        Ok(())
    }

    // Hands a datagram to the system. Where there are other links it is waited for a moment at most, and not at all while the
    // last one wasn't taken.
    fn transmit(&mut self, bytes: &[u8], dest: SocketAddr) -> io::Result<usize>
        ensures faults { (self.new).faults ≡ (self.old).faults }
        ensures idles { (self.new).idles ≡ (self.old).idles }
    {
        if !self.edge.has_several() {
            return send_to(&self.socket, bytes, dest);
        }
        if !self.is_hurried {
            self.is_hurried = true;
            let most = Duration::from_millis(SEND_MILLIS);
            self.socket.set_write_timeout(Some(most))?;
        }
        if !self.sends.is_refused() {
            return send_to(&self.socket, bytes, dest);
        }
        self.socket.set_nonblocking(true)?;
        let answer = send_to(&self.socket, bytes, dest);
        self.socket.set_nonblocking(false)?;
        answer
    }

    // Writes how the sends stand, where that is news.
    fn tell(&mut self, dest: SocketAddr, news: Option<Acceptance>)
        ensures faults { (self.new).faults ≡ (self.old).faults }
        ensures idles { (self.new).idles ≡ (self.old).idles }
    {
        if let Some(acceptance) = news {
            self.edge
                .say_acceptance(dest, acceptance, self.sends.lost());
            self.sends.are_told(self.edge.system());
        }
    }

    /// Writes how the sends stand in the end, where the last line says otherwise.
    pub(crate) fn tell_last(&mut self) {
        if let Some(dest) = self.dest {
            let news = self.sends.last_news();
            self.tell(dest, news);
        }
    }

    // Sends a datagram to where this link sends.
    fn send_over(&mut self, bytes: &[u8]) -> io::Result<()>
        ensures faults { (self.new).faults ≡ (self.old).faults }
        ensures idles { (self.new).idles ≡ (self.old).idles }
    {
        let Some(dest) = self.dest else {
            return Err(ErrorKind::NotConnected.into());
        };
        let answer = self.transmit(bytes, dest);
        let is_alone = !self.edge.has_several();
        self.sends.note(self.edge.system(), answer, is_alone)?;
        let news = self.sends.news(self.edge.system());
        self.tell(dest, news);
        Ok(())
    }
}

impl<'a, R: Clock + Eprint> Link for UdpLink<'a, R> {
    ghost known = { λ link. record { faults = link.faults; contents = None } };

    ghost idles = { λ link. link.idles };

    fn recv(&mut self, buf: &mut [u8]) -> Came {
        match recv_from(&self.socket, buf) {
            Ok(count) => Came::Datagram(count),
            Err(fault) if self.is_idle(&fault) => {
                self.idles = self.idles.saturating_add(1);
                Came::Idle
            }
            Err(fault) => {
                self.fault = Some(fault);
                self.faults = self.faults.saturating_add(1);
                Came::Failed
            }
        }
    }

    fn send(&mut self, bytes: &[u8]) -> Sent {
        self.pace.sends(self.edge.system());
        match self.send_over(bytes) {
            Ok(()) => Sent::Sent,
            Err(fault) => {
                self.fault = Some(fault);
                self.faults = self.faults.saturating_add(1);
                Sent::Failed
            }
        }
    }

    fn rest(&mut self, millis: u32) {
        if millis == 0 {
            return;
        }
        let ended = match self.pace.end_of_rest(self.edge.system(), millis) {
            Ok(end) => self.drop_until(end),
            Err(fault) => Err(fault),
        };
        if ended.is_err() {
            thread::sleep(self.edge.system(), Duration::from_millis(u64::from(millis)));
        }
        let _ = self.socket.set_nonblocking(false);
    }
}

// That the network went away, which may come back, says nothing against a link that receives.
fn is_network_away(fault: &io::Error) -> bool {
    matches!(
        fault.kind(),
        ErrorKind::NetworkDown | ErrorKind::NetworkUnreachable | ErrorKind::HostUnreachable
    )
}

// A signal came before anything else.
fn is_interrupted(fault: &io::Error) -> bool {
    fault.kind() == ErrorKind::Interrupted
}

// The time was over before anything came.
fn is_quiet(fault: &io::Error) -> bool {
    matches!(fault.kind(), ErrorKind::WouldBlock | ErrorKind::TimedOut)
}

fn recv_from(socket: &UdpSocket, buf: &mut [u8]) -> io::Result<usize>
    ensures { IfOk result (λ count. count ≤ length buf.new) }
{
    for _ in 0..u64::MAX {
        match socket.recv_from(buf) {
            Ok((count, _)) => return Ok(count),
            Err(fault) if is_interrupted(&fault) => {}
            Err(fault) => return Err(fault),
        }
    }
    Err(ErrorKind::Interrupted.into())
}

fn send_to(socket: &UdpSocket, bytes: &[u8], dest: SocketAddr) -> io::Result<usize> {
    for _ in 0..u64::MAX {
        match socket.send_to(bytes, dest) {
            Err(fault) if is_interrupted(&fault) => {}
            answer => return answer,
        }
    }
    Err(ErrorKind::Interrupted.into())
}
