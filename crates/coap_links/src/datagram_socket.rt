//! What a link asks of a socket: a datagram is handed to the system, or taken from it, once a call.
ghost use Rattle.std.specs.Prelude.{ℕ, List, Result, ◌≤◌, IfOk, length};
ghost use Rattle.std.specs.declared.io.Error.{Error as ErrorSpec};
ghost use Rattle.std.specs.declared.net.socket_addr.SocketAddr.{SocketAddr as SocketAddrSpec};

use std::io;
use std::net::{SocketAddr, UdpSocket};

/// A socket of UDP. What the system does with a datagram nobody can say here; what it is handed, and how often, a trait
/// can.
pub trait DatagramSocket {
    /// The socket before a datagram is handed to the system, where it goes to, its bytes, what the system says of it,
    /// and the socket after.
    ghost hands: { Self → SocketAddrSpec → List ℕ → Result ℕ ErrorSpec → Self → Type 0 };

    /// The socket before the system is asked for a datagram, what the system says, the buffer after, and the socket
    /// after.
    ghost takes: { Self → Result (ℕ × SocketAddrSpec) ErrorSpec → List ℕ → Self → Type 0 };

    /// Hands a datagram to the system; how many bytes it sends.
    fn hand(&mut self, to: SocketAddr, bytes: &[u8]) -> io::Result<usize>
        // A socket hands the system just these bytes, for that address.
        ensures { hands self.old to bytes.now result self.new };

    /// Asks the system for a datagram, which it puts into the front of the buffer: its length, and where it came from.
    fn take(&mut self, buf: &mut [u8]) -> io::Result<(usize, SocketAddr)>
        // A socket takes from the system what is answered, as its own words have it.
        ensures takes { takes self.old result buf.new self.new }
        // What a socket takes from the system fits the buffer.
        ensures fits { IfOk result (λ came. came.0 ≤ length buf.new) };
}

/// A socket that the system has bound. Where that is, and whether it is connected, nobody can say here; what the system
/// says, and what it is asked, a trait can.
pub(crate) trait BoundSocket {
    /// The socket, and what the system says of where it is.
    ghost says: { Self → Result SocketAddrSpec ErrorSpec → Type 0 };

    /// The socket before the system is asked to connect it, to which peer, and the socket after.
    ghost joins: { Self → SocketAddrSpec → Self → Type 0 };

    /// Where the system says that it is.
    fn place(&self) -> io::Result<SocketAddr>
        ensures { says self.now result };

    /// Asks the system to connect it to a peer. Where the system does not, it stays as it is.
    fn join(&mut self, peer: SocketAddr)
        ensures { joins self.old peer self.new };
}

impl BoundSocket for UdpSocket {
    ghost use Rattle.std.specs.Prelude.{⊤};

    ghost says = { λ _ _. ⊤ };

    ghost joins = { λ _ _ _. ⊤ };

    fn place(&self) -> io::Result<SocketAddr> {
        self.local_addr()
    }

    fn join(&mut self, peer: SocketAddr) {
        let _joined = self.connect(peer);
    }
}

impl DatagramSocket for UdpSocket {
    ghost use Rattle.std.specs.Prelude.{⊤};

    ghost hands = { λ _ _ _ _ _. ⊤ };

    ghost takes = { λ _ _ _ _. ⊤ };

    fn hand(&mut self, to: SocketAddr, bytes: &[u8]) -> io::Result<usize> {
        self.send_to(bytes, to)
    }

    fn take(&mut self, buf: &mut [u8]) -> io::Result<(usize, SocketAddr)> {
        self.recv_from(buf)
    }
}
