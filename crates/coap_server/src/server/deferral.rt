//! A request whose path has a delay waits (RFC 7252, section 5.2.2).
ghost use Rattle.std.specs.Prelude.{◌≡◌, ◌++◌, ◌∷◌, [], Ok, true, false, IfOk, OnErr, map};
ghost use Rattle.coap_types.specs.CoapOption.{options_of};
ghost use Rattle.coap_resource.specs.Serves.{question_of};
ghost use Rattle.coap_exchange.specs.AnswererLaw.{Step};
ghost use Rattle.coap_exchange.specs.AnswererTrace.{Defers};
ghost use Rattle.coap_exchange.specs.Machine.AnswererShown.{MayAnswer};
ghost use Rattle.coap_server.specs.Deferring.{delay_for, delay_of};
ghost use Rattle.coap_server.specs.Object.Shown.{delay_as, kept_of, option_as};

use crate::server::parts::{Delay, KeptOption, Parts, Waiting, push_within};
use bytes::Bytes;
use coap_exchange::Asked;
use coap_resource::{Asking, Store};
use coap_types::{Kind, Opt, Path};
use std::alloc::{AllocError, Allocator};
use std::hash::BuildHasher;

/// The delay of a path, for a request of this type.
#[inline(always)]
pub(crate) fn delay_for<A: Allocator>(
    delays: &[Delay<A>],
    kind: Kind,
    path: &Path<A>,
) -> Option<u64>
    ensures { result ≡ delay_for kind path.now (map delay_as delays.now) }
{
    match kind {
        Kind::Con => delay_of(delays, path),
        Kind::Non | Kind::Ack | Kind::Rst => None,
    }
}

// The delay of a path.
fn delay_of<A: Allocator>(delays: &[Delay<A>], path: &Path<A>) -> Option<u64>
    ensures { result ≡ delay_of path.now (map delay_as delays.now) }
{
    for delay in delays {
        if delay.path == *path {
            return Some(delay.ms);
        }
    }
    None
}

// The options again, to be kept.
fn keep_options<A: Allocator + Copy>(
    alloc: A,
    options: &[Opt<'_>],
) -> Result<Vec<KeptOption<A>, A>, AllocError>
    ensures { IfOk result (λ list. map option_as list.items ≡ options_of options.now) }
{
    let mut list = Vec::new(alloc);
    for option in options {
        let value = Vec::from_slice(alloc, option.value)?;
        list.push(KeptOption {
            number: option.number,
            value,
        })?;
    }
    Ok(list)
}

/// Lets a request wait, where there is a place.
pub(crate) fn defer<S: Store<A>, A: Allocator + Copy, H: BuildHasher>(
    parts: &mut Parts<S, A, H>,
    asked: &Asked,
    asking: &Asking<'_, A>,
    delay: u64,
) -> Result<bool, AllocError>
    requires may { MayAnswer parts.old.exchanges asked.now }
    requires con { asked.now.kind ≡ Kind.Con }
    requires szx { asking.now.szx ≡ parts.old.szx }
    ensures step { IfOk result (λ deferred. Step parts.old.exchanges.state
        (Defers parts.old.clock.0 asked.now delay deferred) parts.new.exchanges.state) }
    ensures waits { result ≡ Ok true → kept_of parts.new ≡ record (kept_of parts.old) {
      exchanges = parts.new.exchanges.state;
      waiting = (kept_of parts.old).waiting
          ++ record { asked = asked.now; at = parts.old.clock.0; delay = delay; question = question_of asking.now } ∷
          [];
      applied = [];
    } }
    ensures stays { result ≡ Ok false → kept_of parts.new
        ≡ record (kept_of parts.old) { exchanges = parts.new.exchanges.state } }
    ensures may { result ≡ Ok false → MayAnswer parts.new.exchanges asked.now }
    ensures uploads { parts.new.uploads ≡ parts.old.uploads }
    ensures before { parts.new.exchanges.before ≡ parts.old.exchanges.before }
    ensures err { OnErr result (kept_of parts.new ≡ kept_of parts.old) }
{
    let waiting = Waiting {
        asked: asked.copy(),
        at: parts.clock,
        delay,
        method: asking.method,
        path: asking.path.clone()?,
        options: keep_options(parts.alloc, asking.options)?,
        body: Bytes::copy_from_slice(parts.alloc, asking.body)?,
    };
    parts.waiting.reserve(1)?;
    let deferred = parts.exchanges.defer(parts.clock, asked, delay);
    if deferred {
        push_within(&mut parts.waiting, waiting);
        parts.applied = None;
    }
    Ok(deferred)
}
