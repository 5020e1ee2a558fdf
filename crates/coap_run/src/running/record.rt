//! What a run tells.
ghost use Rattle.std.specs.Prelude.{◌≡◌, [], OnOk, is_err, option_copied, slice_get};
ghost use Rattle.std.specs.Option.{option_map};
ghost use Rattle.coap_client.specs.Object.Shown.{shown_reported};
ghost use Rattle.coap_client.specs.declared.client.report.CallId.{CallId};
ghost use Rattle.coap_server.specs.Object.Shown.{applied_as};
ghost use Rattle.coap_resource.specs.Shown.{shown};
ghost use Rattle.coap_run.specs.Run.Lines.{line_of};
ghost use Rattle.coap_run.specs.Run.Log.{Applies, Reports, given_put, line_put, lines_put, refused_line};
ghost use Rattle.coap_run.specs.Run.Telling.{change_told};

use crate::running::copies::copied_holding;
use crate::running::met::Met;
use coap_ends::{Applied, CallId, CallRefusal, CancelRefusal, Report};
use coap_layer::Datagram;
use coap_resource::{Representation, StoreRefusal};
use coap_types::{Endpoint, Method, Moment, Path, Token};
use std::alloc::{AllocError, Allocator, Global};
use std::marker::Model;

/// A datagram that an end gave out.
#[derive(Drop)]
pub struct Given<A: Allocator + Copy = Global> {
    at: Moment,
    from: Endpoint,
    datagram: Datagram<A>,
}

impl<A: Allocator + Copy> Model for Given<A> {
    ghost use Rattle.coap_record.specs.Record.{Given};

    ghost Value = { Given };

    ghost view = { λ g. record { at = g.at.0; from = g.from; packet = g.datagram } };
}

impl<A: Allocator + Copy> Given<A> {
    /// When it was given out.
    pub fn at(&self) -> Moment
        // The moment is that at which the datagram was given out.
        ensures { result.0 ≡ self.now.at }
    {
        self.at
    }

    /// By which end.
    pub fn from(&self) -> Endpoint
        // The endpoint is that of the end which gave it out.
        ensures { result ≡ self.now.from }
    {
        self.from
    }

    /// For whom.
    pub fn to(&self) -> Endpoint
        // The endpoint is the one to which it is addressed.
        ensures { result ≡ self.now.packet.to }
    {
        self.datagram.to()
    }

    /// Its bytes.
    pub fn bytes(&self) -> &[u8]
        // The bytes are those of the datagram that was given out.
        ensures { result.now ≡ self.now.packet.bytes }
    {
        self.datagram.bytes()
    }
}

/// A request that the server applied: a PUT, POST or DELETE that was answered 2.01, 2.02 or 2.04.
#[derive(Drop)]
pub struct AppliedRequest<A: Allocator + Copy = Global> {
    /// The call that it belongs to; None where it came from another address than the client's.
    pub call: Option<CallId>,
    /// Where it came from.
    pub from: Endpoint,
    /// Its token.
    pub token: Token,
    /// Of which resource.
    pub path: Path<A>,
    /// What it asked for.
    pub method: Method,
    /// The version that it made, 0 where it changed nothing.
    pub version: u64,
}

/// A change of what the server holds: a local one, or that of a request that was applied.
#[derive(Drop)]
pub struct Change<A: Allocator + Copy = Global> {
    /// Of which resource.
    pub path: Path<A>,
    /// The number of the change, from 1.
    pub version: u64,
    /// What the path holds since; None where that is gone.
    pub held: Option<Representation<A>>,
}

/// What a line of a record tells.
#[derive(Drop)]
pub enum Kind<A: Allocator + Copy = Global> {
    /// An event begins, at this moment.
    Begins(Moment),
    /// The answer to a call or an observation.
    Takes(Result<CallId, CallRefusal>),
    /// The answer to a cancel.
    Cancels(Result<(), CancelRefusal>),
    /// The answer to a forgetting.
    Forgets(bool),
    /// The answer to a local change.
    Puts(Result<u64, StoreRefusal>),
    /// The answer to a removal.
    Removes(Result<bool, StoreRefusal>),
    /// A request is applied.
    Applies(AppliedRequest<A>),
    /// A path is changed: locally, or by the request that is applied just before.
    Changes(Change<A>),
    /// The next datagram is given out.
    Out,
    /// A report is taken, that of the call or the observation of this number.
    Reports(CallId, Report<A>),
    /// The input of the event met want of memory.
    Refused,
}

/// A line of a record.
#[derive(Drop)]
pub struct Line<A: Allocator + Copy = Global> {
    pub kind: Kind<A>,
}

impl<A: Allocator + Copy> Model for Line<A> {
    ghost use Rattle.coap_run.specs.Run.Log.{Line};

    ghost Value = { Line };

    ghost use Rattle.coap_run.specs.Run.Lines.{line_of};

    ghost view = { λ l. line_of l.kind };
}

/// What a run tells: the datagrams that were given out, in order, and the lines of its events, in
/// order. A datagram has the number of those that were given out before it.
///
/// The lines of an event: that it begins; what its call answers; of each call of the server in turn, the
/// request that it applied and its change; the datagrams that its end then gives out; the reports;
/// and whether its input met want of memory.
#[derive(Drop)]
pub struct Record<A: Allocator + Copy = Global> {
    given: Vec<Given<A>, A>,
    lines: Vec<Line<A>, A>,
}

impl<A: Allocator + Copy> Model for Record<A> {
    ghost use Rattle.coap_run.specs.Run.Log.{Log};

    ghost Value = { Log };

    ghost view = { λ l. record { given = l.given.items; lines = l.lines.items } };
}

impl<A: Allocator + Copy> Record<A> {
    /// That of no event.
    pub(crate) fn new(alloc: A) -> Record<A>
        ensures { result ≡ record { given = []; lines = [] } }
    {
        Record {
            given: Vec::new(alloc),
            lines: Vec::new(alloc),
        }
    }

    /// The datagrams.
    pub fn given(&self) -> &[Given<A>]
        // What is lent are the datagrams that were given out, in their order.
        ensures { result.now ≡ self.now.given }
    {
        self.given.as_slice()
    }

    /// The lines.
    pub fn lines(&self) -> &[Line<A>]
        // What is lent are the lines of the record, one an event.
        ensures { result.now ≡ self.now.lines }
    {
        self.lines.as_slice()
    }

    /// The datagram of this number.
    pub fn get(&self, number: usize) -> Option<&Given<A>>
        // What is lent is the datagram of that number.
        ensures { option_copied result ≡ slice_get self.now.given number }
    {
        self.given.get(number)
    }

    /// Adds a line.
    pub(crate) fn note(&mut self, kind: Kind<A>) -> Result<(), AllocError>
        ensures { OnOk result (self.new ≡ line_put (line_of kind) self.old) }
    {
        self.lines.push(Line { kind })?;
        Ok(())
    }

    /// Notes a report.
    pub(crate) fn report(&mut self, told: (CallId, Report<A>)) -> Result<(), AllocError>
        ensures { OnOk result (self.new ≡ line_put (Reports (shown_reported told)) self.old) }
    {
        let (id, report) = told;
        self.note(Kind::Reports(id, report))?;
        Ok(())
    }

    /// Notes want of memory.
    pub(crate) fn end(&mut self, met: Met) -> Result<(), AllocError>
        ensures { OnOk result (self.new ≡ lines_put (refused_line (is_err met)) self.old) }
    {
        if met.is_err() {
            self.note(Kind::Refused)?;
        }
        Ok(())
    }

    /// Notes a request that was applied, for this call.
    pub(crate) fn apply(
        &mut self,
        call: Option<CallId>,
        applied: &Applied<A>,
    ) -> Result<(), AllocError>
        ensures { OnOk result (self.new ≡ line_put
            (Applies (option_map (λ (id : CallId). id.0) call) (applied_as applied.now)) self.old) }
    {
        let path = applied.path.clone()?;
        self.note(Kind::Applies(AppliedRequest {
            call,
            from: applied.from,
            token: applied.token.copy(),
            path,
            method: applied.method,
            version: applied.version,
        }))?;
        Ok(())
    }

    /// Notes a change.
    pub(crate) fn change(
        &mut self,
        path: &Path<A>,
        version: u64,
        held: Option<&Representation<A>>,
    ) -> Result<(), AllocError>
        ensures { OnOk result (self.new ≡ lines_put
            (change_told path.now version (shown (option_copied held.entry))) self.old) }
    {
        let path = path.clone()?;
        let held = copied_holding(held)?;
        self.note(Kind::Changes(Change {
            path,
            version,
            held,
        }))?;
        Ok(())
    }

    /// Notes a datagram, given out at this moment by the end of this address.
    pub(crate) fn give(
        &mut self,
        at: Moment,
        from: Endpoint,
        datagram: Datagram<A>,
    ) -> Result<(), AllocError>
        ensures { OnOk result (self.new ≡ given_put (record { at = at.0; from = from; packet = datagram }) self.old) }
    {
        self.given.push(Given { at, from, datagram })?;
        self.note(Kind::Out)?;
        Ok(())
    }
}
