//! A partial body at a server, and how long it is kept.
ghost use Rattle.std.specs.Prelude.{◌≡◌, ◌++◌, ◌&&◌, IfOk, OnOk, OnErr, length};
ghost use Rattle.coap_types.specs.SameEndpoint.{same_endpoint};
ghost use Rattle.coap_block.specs.AssemblyState.{is_live};
ghost use Rattle.coap_block.specs.AssemblyKept.{begun, body_of, cut, grown, is_there, key_of};

use crate::arrival::Arrival;
use crate::gathering::Gathering;
use crate::upload_key::UploadKey;
use bytes::Bytes;
use coap_types::transmission::EXCHANGE_LIFETIME_MS;
use coap_types::{Endpoint, Moment};
use std::alloc::{AllocError, Allocator};

/// How long a partial body is kept after its last block, in milliseconds (profile: EXCHANGE_LIFETIME,
/// RFC 7252, section 4.8.2; RFC 7959, section 7, asks for a bound).
pub const PARTIAL_LIFETIME_MS: u64 = EXCHANGE_LIFETIME_MS;

const _: () = prove!(PARTIAL_LIFETIME_MS == EXCHANGE_LIFETIME_MS);

/// The blocks of one upload, joined so far.
#[derive(Drop)]
#[derive_where(Debug)]
pub(crate) struct Partial<A: Allocator> {
    /// Of which upload.
    pub(crate) key: UploadKey<A>,
    /// The bytes from the start of the body.
    pub(crate) bytes: Gathering<A>,
    /// When its last block came.
    pub(crate) last: Moment,
}

impl<A: Allocator + Copy> Partial<A> {
    /// One of block 0.
    pub(crate) fn of(alloc: A, arrival: &Arrival<'_, '_, A>) -> Result<Partial<A>, AllocError>
        ensures { IfOk result (λ partial. body_of partial
            ≡ begun (key_of arrival.now.key.now) arrival.now.payload.now arrival.now.at.0) }
    {
        Ok(Partial {
            key: arrival.key.copy()?,
            bytes: Gathering::of(alloc, arrival.payload)?,
            last: arrival.at,
        })
    }

    /// How many bytes it has.
    pub(crate) fn len(&self) -> usize
        ensures { result ≡ length (body_of self.now).bytes }
    {
        self.bytes.as_slice().len()
    }

    /// Whether its last block is no longer ago than it is kept.
    pub(crate) fn is_live(&self, now: Moment) -> bool
        ensures { result ≡ is_live now.0 (body_of self.now) }
    {
        now.0.saturating_sub(self.last.0) <= PARTIAL_LIFETIME_MS
    }

    /// Whether it is there, and of an upload from there.
    pub(crate) fn is_from(&self, from: Endpoint, now: Moment) -> bool
        ensures { result ≡ (is_live now.0 (body_of self.now) && same_endpoint self.now.key.from from) }
    {
        self.is_live(now) && self.key.from == from
    }

    /// Whether it is of an upload from there.
    pub(crate) fn is_of(&self, from: Endpoint) -> bool
        ensures { result ≡ same_endpoint self.now.key.from from }
    {
        self.key.from == from
    }

    /// Whether it is that of the key, and there.
    pub(crate) fn is_there(&self, key: &UploadKey<A>, now: Moment) -> bool
        ensures { result ≡ is_there (key_of key.now) now.0 (body_of self.now) }
    {
        self.is_live(now) && self.key.is(key)
    }

    /// Puts a payload behind the bytes.
    pub(crate) fn grow(&mut self, payload: &[u8], now: Moment) -> Result<(), AllocError>
        ensures ok { OnOk result (body_of self.new ≡ grown payload.now now.0 (body_of self.old)) }
        ensures err { OnErr result (body_of self.new ≡ body_of self.old) }
    {
        let len = self.len();
        self.bytes.put_at(len, payload)?;
        self.last = now;
        Ok(())
    }

    /// The body with its last payload. The bytes stay as they were, as a share of it.
    pub(crate) fn whole_with(&mut self, payload: &[u8]) -> Result<Bytes<A>, AllocError>
        ensures whole { IfOk result (λ whole. whole ≡ (body_of self.old).bytes ++ payload.now) }
        ensures same { body_of self.new ≡ body_of self.old }
    {
        let len = self.len();
        self.bytes.whole_at(len, payload)
    }

    /// Cuts it to its first bytes, with its last block at that moment.
    pub(crate) fn cut(&mut self, len: usize, last: Moment)
        ensures { body_of self.new ≡ cut len last.0 (body_of self.old) }
    {
        self.bytes.truncate(len);
        self.last = last;
    }
}
