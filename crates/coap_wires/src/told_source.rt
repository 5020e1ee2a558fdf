//! Where links come from over which it is told what passes.
ghost use Rattle.std.specs.Prelude.{◌≡◌};

use crate::capturing::{CaptureTeller, capture_on};
use crate::closed_port::{ClosedPort, ClosedPortLink};
use crate::link_source::LinkSource;
use crate::losses::{LossLink, Losses};
use crate::screen::Screen;
use crate::sources::Ends;
use crate::timekeeper::ProgramTime;
use crate::tracing::{LineTeller, SharedWriter, Tracing, teller_on};
use coap_links::{Link, Trace};
use coap_types::{Endpoint, Moment};
use std::alloc::Global;
use std::cell::RefCell;
use std::io;
use std::io::Write;
use std::rt::Clock;

/// How it is told what passes a link.
#[derive(Drop)]
pub struct Telling<'r, 's, 'f, R: Clock, W, F> {
    /// The allocator.
    pub alloc: Global,
    /// The clock of what is told.
    pub time: ProgramTime<'r, R>,
    /// When that clock began, in milliseconds since 1970.
    pub begin: Moment,
    /// Standard error.
    pub screen: &'s RefCell<Screen<W>>,
    /// How each datagram is told of there.
    pub tracing: Tracing,
    /// The file that takes each datagram, as a capture.
    pub file: Option<&'f RefCell<F>>,
    /// After how many seconds the client gives up.
    pub give_up: Option<u64>,
}

/// Links of another source, over which it is told what passes: on standard error, and in a capture; and where nobody
/// listens, or sends fail.
#[derive(Drop)]
pub struct ToldSource<'r, 's, 'f, S, R: Clock, W, F> {
    source: S,
    telling: Telling<'r, 's, 'f, R, W, F>,
}

impl<'r, 's, 'f, S, R: Clock, W, F> ToldSource<'r, 's, 'f, S, R, W, F> {
    /// Links of this source, of which it is told so.
    pub fn new(
        source: S,
        telling: Telling<'r, 's, 'f, R, W, F>,
    ) -> ToldSource<'r, 's, 'f, S, R, W, F>
        // Links of which it is told what passes come from the source that is handed in.
        ensures { result.source ≡ source }
    {
        ToldSource { source, telling }
    }
}

// The writer to a file that others have too, where there is one.
fn shared<'s, F>(file: &Option<&'s RefCell<F>>) -> Option<SharedWriter<'s, F>> {
    match file {
        Some(file) => Some(SharedWriter::new(*file)),
        None => None,
    }
}

impl<'r, 's, 'f, S: Ends + Drop, R: Clock, W: Write + Drop, F: Write + Drop> LinkSource
    for ToldSource<'r, 's, 'f, S, R, W, F> {
    type Link = Trace<
        Trace<
            ClosedPortLink<
                LossLink<S::Link, SharedWriter<'s, Screen<W>>>,
                SharedWriter<'s, Screen<W>>,
            >,
            Option<CaptureTeller<S::Own, Global, ProgramTime<'r, R>, SharedWriter<'f, F>>>,
        >,
        Option<LineTeller<Global, ProgramTime<'r, R>, SharedWriter<'s, Screen<W>>, S::Peers>>,
    >;

    ghost reaches = { λ told. S.reaches told.source };

    fn open(&self) -> io::Result<(Self::Link, Endpoint)> {
        let telling = &self.telling;
        let (link, server) = self.source.open()?;
        let own = self.source.own(link.address());
        let writer = SharedWriter::new(telling.screen);
        let closed_port = ClosedPort::new(writer, self.source.server(), telling.give_up);
        let losses = Losses::new(SharedWriter::new(telling.screen));
        let link = ClosedPortLink::new(LossLink::new(link, losses), closed_port);
        let file = shared(&telling.file);
        let time = telling.time.again();
        let capture = capture_on(own, telling.alloc, time, telling.begin, file);
        let link = Trace::new(link, capture);
        let time = telling.time.again();
        let peers = self.source.peers();
        let teller = teller_on(telling.alloc, time, telling.screen, peers, telling.tracing);
        Ok((Trace::new(link, teller), server))
    }
}
