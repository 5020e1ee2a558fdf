//! What a response says (RFC 7252, sections 5.9 and 5.10; RFC 7641, section 3.2; RFC 7959, section 2.2).
ghost use Rattle.std.specs.Prelude.{◌≡◌, option_copied, if◌then◌else◌, Some, None, IfOk, OnErr};
ghost use Rattle.coap_block.specs.FetchState.{FetchValue};
ghost use Rattle.coap_block.specs.FetchStep.{after};
ghost use Rattle.coap_types.specs.OptionValues.{value_of};
ghost use Rattle.coap_client.specs.Responses.{said, tag_in, format_in, is_notification, sequence_in};
ghost use Rattle.coap_client.specs.Responses.{block_at, part};
ghost use Rattle.coap_client.specs.Object.AnswerSteps.{Takes, CanGoBack};

use coap_block::{Fetch, FetchRefusal, Step};
use coap_codec::View;
use coap_types::option_number::{BLOCK2, CONTENT_FORMAT, ETAG, OBSERVE};
use coap_types::{Block, Code, Direction, Tag, recognised_value, uint_of};
use std::alloc::{AllocError, Allocator};

// The value of the first option of this number that is recognised.
fn value_in<'a>(number: u16, m: &View<'a>) -> Option<&'a [u8]>
    ensures { option_copied result ≡ value_of number (said m.now) }
{
    recognised_value(Direction::Response, number, m.options())
}

/// The entity-tag of the representation.
#[tactic(auto, using(crate::proofs::Calls::ResponseLemmas::etag_few))]
pub fn tag_in(m: &View<'_>) -> Option<Tag>
    ensures { result ≡ tag_in m.now }
{
    Tag::new(value_in(ETAG, m)?)
}

/// The format of the representation.
pub fn format_in(m: &View<'_>) -> Option<u16>
    ensures { result ≡ format_in m.now }
{
    u16::try_from(uint_of(value_in(CONTENT_FORMAT, m)?)?).ok()
}

/// The sequence number of a notification, which is a 2.05 with Observe.
#[tactic(auto, using(crate::proofs::Calls::ResponseLemmas::observe_few))]
pub fn sequence_of(m: &View<'_>) -> Option<u32>
    ensures { result ≡ (if is_notification m.now then Some (sequence_in m.now) else None) }
{
    if m.code() != Code::CONTENT {
        return None;
    }
    uint_of(value_in(OBSERVE, m)?)
}

/// The block that an option says.
pub fn block_at(number: u16, m: &View<'_>) -> Option<Block>
    ensures { result ≡ block_at number m.now }
{
    Block::read(value_in(number, m)?)
}

/// Takes the part of a body that a 2.05 carries; one whose Block2 says no block is refused.
pub fn take_part<A: Allocator + Copy>(
    fetch: &mut Fetch<A>,
    m: &View<'_>,
) -> Result<Step<A>, AllocError>
    ensures takes { IfOk result (λ step. Takes fetch.old.state m.now step fetch.new.state) }
    ensures back { IfOk result (λ step. CanGoBack step fetch.old.state fetch.new) }
    ensures err { OnErr result (fetch.new.state ≡ fetch.old.state) }
{
    let block = match value_in(BLOCK2, m) {
        None => None,
        Some(value) => match Block::read(value) {
            Some(block) => Some(block),
            None => return Ok(Step::Refused(FetchRefusal::BadBlock)),
        },
    };
    fetch.accept(block, tag_in(m), m.payload())
}
