//! A socket of UDP, whose calls that failed are counted.
ghost use Rattle.std.specs.Prelude.{Ok, Some, None, ◌≡◌, ◌≤◌, ◌⊎◌, ◌↔◌, IfErr, IfOk, IfSome, IsErrAnd, length};
ghost use Rattle.std.specs.Prelude.{true, false};
ghost use Rattle.std.specs.IoError.{error_kind};
ghost use Rattle.coap_links.specs.Faults.{MayRaise, RaisesOrEnds, raised};
ghost use Rattle.coap_links.specs.SocketCalls.{Hands, IsMissed, IsQuiet, IsOfSocket, ReceivesOn, SendsOn, sent_by};

use crate::datagram_socket::{BoundSocket, DatagramSocket};
use crate::link::raise;
use std::io;
use std::io::ErrorKind;
use std::net::{Net, SocketAddr, UdpSocket};
use std::time::Duration;

// How long a receive waits for a datagram.
const RECEIVE_WAIT_MS: u64 = 10;

const _: () = prove!(RECEIVE_WAIT_MS == 10);

// The errors that say what a socket itself is: its number is none of the program's (EBADF), or no socket's (ENOTSOCK).
const BAD_DESCRIPTOR: i32 = 9;

const NOT_A_SOCKET: i32 = 88;

const _: () = prove!(BAD_DESCRIPTOR == 9 && NOT_A_SOCKET == 88);

/// A socket, how many of its calls failed, and what the system said in them.
#[derive(Drop)]
pub(crate) struct Socket<D> {
    pub socket: D,
    /// Where the system was asked to bind it.
    pub asked: Option<SocketAddr>,
    /// Where the system said that it is.
    pub at: Option<SocketAddr>,
    /// To which peer the system was asked to connect it.
    pub joined: Option<SocketAddr>,
    pub faults: u64,
    /// How many receives in a row failed for what the socket itself is.
    pub broken: u64,
    /// Why a datagram is lost, as the system said in the last call.
    pub loss: Option<io::Error>,
    /// Whether the system said that nobody listens where its datagrams go.
    pub is_refused: bool,
}

impl Socket<UdpSocket> {
    /// A socket at this address, which waits for a datagram for `RECEIVE_WAIT_MS`.
    pub fn bind<R: Net>(net: &R, address: SocketAddr) -> io::Result<Socket<UdpSocket>>
        ensures faults { IfOk result (λ socket. socket.faults ≡ 0) }
        ensures whole { IfOk result (λ socket. socket.broken ≡ 0) }
        ensures hears { IfOk result (λ socket. socket.is_refused ≡ false) }
        ensures asked { IfOk result (λ socket. socket.asked ≡ Some address) }
        ensures joined { IfOk result (λ socket. socket.joined ≡ None) }
    {
        let socket = UdpSocket::bind(net, address)?;
        socket.set_read_timeout(Some(Duration::from_millis(RECEIVE_WAIT_MS)))?;
        Ok(Socket::asked_for(socket, address))
    }
}

impl<D: BoundSocket> Socket<D> {
    /// Where the system says that it is.
    pub fn place(&mut self) -> io::Result<SocketAddr>
        ensures says { D.says self.old.socket result }
        ensures at { IfOk result (λ at. self.new.at ≡ Some at) }
        ensures left { self.new ≡ record self.old { at = self.new.at } }
    {
        let at = self.socket.place()?;
        self.at = Some(at);
        Ok(at)
    }

    /// Has the system drop what comes from elsewhere, and say where nobody listens (RFC 1122, section 4.1.3.3). Where
    /// there is no way to that address yet, the socket stays as it is, and sends once there is one.
    pub fn connect(&mut self, peer: SocketAddr)
        ensures joins { D.joins self.old.socket peer self.new.socket }
        ensures left { self.new ≡ record self.old { socket = self.new.socket; joined = Some peer } }
    {
        self.socket.join(peer);
        self.joined = Some(peer);
    }
}

impl<D> Socket<D> {
    /// A socket of which no call failed.
    pub fn over(socket: D) -> Socket<D>
        ensures { result ≡ record {
          socket = socket;
          asked = None;
          at = None;
          joined = None;
          faults = 0;
          broken = 0;
          loss = None;
          is_refused = false;
        } }
    {
        Socket {
            socket,
            asked: None,
            at: None,
            joined: None,
            faults: 0,
            broken: 0,
            loss: None,
            is_refused: false,
        }
    }

    // .. that the system was asked to bind there.
    fn asked_for(socket: D, address: SocketAddr) -> Socket<D>
        ensures { result ≡ record {
          socket = socket;
          asked = Some address;
          at = None;
          joined = None;
          faults = 0;
          broken = 0;
          loss = None;
          is_refused = false;
        } }
    {
        Socket {
            socket,
            asked: Some(address),
            at: None,
            joined: None,
            faults: 0,
            broken: 0,
            loss: None,
            is_refused: false,
        }
    }
}

impl<D: DatagramSocket + Drop> Socket<D> {
    /// Sends a datagram. A call that only tells that nobody listened to an earlier one is made once more, as the system
    /// sent nothing.
    pub fn send(&mut self, to: SocketAddr, bytes: &[u8])
        ensures sends { SendsOn D.hands self.old to bytes.now self.new }
        ensures counted { MayRaise self.old.faults self.new.faults }
    {
        match self.hand(to, bytes) {
            Sending::Closed => {
                self.is_refused = true;
                let again = self.hand(to, bytes);
                self.count(again);
            }
            sending => self.count(sending),
        }
    }

    // Hands a datagram to the system, once; what became of it.
    fn hand(&mut self, to: SocketAddr, bytes: &[u8]) -> Sending
        ensures hands { Hands D.hands self.old.socket to bytes.now result self.new.socket }
        ensures kept { self.new ≡ record self.old { socket = self.new.socket } }
    {
        let said = self.socket.hand(to, bytes);
        sending_of(said, bytes.len())
    }

    // Counts what became of a datagram.
    fn count(&mut self, sending: Sending)
        ensures counted { self.new ≡ sent_by sending self.old }
        ensures raised { MayRaise self.old.faults self.new.faults }
    {
        self.loss = None;
        match sending {
            Sending::Went => {}
            Sending::Closed => {}
            Sending::Failed(error) => {
                self.faults = raise(self.faults);
                self.loss = Some(error);
            }
        }
    }

    /// Receives a datagram into the front of the buffer: its length, and where it came from.
    pub fn receive(&mut self, buf: &mut [u8]) -> Option<(usize, SocketAddr)>
        ensures receives { ReceivesOn D.takes self.old buf.new result self.new }
        ensures fits { IfSome result (λ came. came.0 ≤ length buf.new) }
        ensures room { length buf.new ≡ length buf.old }
        ensures counted { MayRaise self.old.faults self.new.faults }
        ensures broken { RaisesOrEnds self.old.broken self.new.broken }
        ensures whole { IfSome result (λ _. self.new.broken ≡ 0) }
    {
        match self.socket.take(buf) {
            Ok(came) => {
                self.broken = 0;
                self.loss = None;
                self.is_refused = false;
                Some(came)
            }
            Err(error) => {
                self.missed(error);
                None
            }
        }
    }

    // A receive found no datagram, and ended so.
    fn missed(&mut self, error: io::Error)
        ensures counted { MayRaise self.old.faults self.new.faults }
        ensures broken { RaisesOrEnds self.old.broken self.new.broken }
        ensures missed { IsMissed error self.old self.new }
    {
        let kind = error.kind();
        if is_closed(kind) {
            self.is_refused = true;
        }
        if is_quiet(kind) {
            self.broken = 0;
            self.loss = None;
        } else {
            self.faults = raise(self.faults);
            self.fail(error);
        }
    }

    // A receive failed so: for what the socket itself is, or since the system tells of a datagram that is lost.
    fn fail(&mut self, error: io::Error)
        ensures own { IsOfSocket error → self.new ≡ record self.old { broken = raised self.old.broken; loss = None } }
        ensures lost { (IsOfSocket error → ⊥) → self.new ≡ record self.old { broken = 0; loss = Some error } }
        ensures broken { RaisesOrEnds self.old.broken self.new.broken }
        ensures counted { self.new.faults ≡ self.old.faults }
    {
        if is_of_socket(&error) {
            self.broken = raise(self.broken);
            self.loss = None;
        } else {
            self.broken = 0;
            self.loss = Some(error);
        }
    }
}

/// What became of a datagram that was handed to the system.
#[derive(Clone, Copy, Debug)]
pub(crate) enum Sending {
    /// It was sent.
    Went,
    /// It was not: in its place the system said of an earlier one that nobody listens there.
    Closed,
    /// It was not sent, for this reason, or not whole.
    Failed(io::Error),
}

/// What became of a datagram of so many bytes.
pub(crate) fn sending_of(sent: io::Result<usize>, len: usize) -> Sending
    ensures went { (result ≡ Sending.Went) ↔ (sent ≡ Ok len) }
    ensures closed { (result ≡ Sending.Closed)
        ↔ IsErrAnd sent (λ error. error_kind error ≡ ErrorKind.ConnectionRefused) }
    ensures why { IfErr sent (λ error. (result ≡ Sending.Closed) ⊎ (result ≡ Sending.Failed error)) }
{
    match sent {
        Ok(count) if count == len => Sending::Went,
        Ok(_) => Sending::Failed(io::Error::from(ErrorKind::WriteZero)),
        Err(error) => {
            if is_closed(error.kind()) {
                Sending::Closed
            } else {
                Sending::Failed(error)
            }
        }
    }
}

// Whether a call that ended so was told that nobody listens there.
fn is_closed(kind: ErrorKind) -> bool
    ensures { (result ≡ true) ↔ (kind ≡ ErrorKind.ConnectionRefused) }
{
    kind == ErrorKind::ConnectionRefused
}

// Whether a receive that ended so only found no datagram.
fn is_quiet(kind: ErrorKind) -> bool
    ensures { (result ≡ true) ↔ IsQuiet kind }
{
    kind == ErrorKind::WouldBlock || kind == ErrorKind::TimedOut || is_closed(kind)
}

// Whether a receive that failed so did for what the socket itself is.
fn is_of_socket(error: &io::Error) -> bool
    ensures { (result ≡ true) ↔ IsOfSocket error.now }
{
    match error.raw_os_error() {
        Some(code) => code == BAD_DESCRIPTOR || code == NOT_A_SOCKET,
        None => false,
    }
}
