//! A response with all its options, each as its bytes.
ghost use Rattle.std.specs.Prelude.{◌≡◌, ◌≤◌, ℕ, List, [], IfSome, length, option_copied};
ghost use Rattle.std.specs.Option.{option_map};
ghost use Rattle.coap_types.specs.declared.token.TheConstants.{MAX_TOKEN_LEN as max_token_len};
ghost use Rattle.coap_types.specs.BlockValue.{block_value};
ghost use Rattle.coap_types.specs.OptionValues.{uint_option};
ghost use Rattle.coap_types.specs.Roles.{role_of};
ghost use Rattle.coap_types.specs.Uint.{uint};
ghost use Rattle.coap_types.specs.declared.role.Role.TheVariants as role;
ghost use Rattle.coap_resource.specs.ResponseOptions.{Fits, block_number};
ghost use Rattle.coap_resource.specs.Serves.{reply_of};
ghost use Rattle.coap_exchange.specs.Machine.AnswererShown.{IsAnswerWith};
ghost use Rattle.coap_server.specs.Responses.{response_with};
ghost use Rattle.coap_server.specs.Object.FullResponses.{response_as};

use coap_exchange::{Response as Answer, notifiable_law};
use coap_resource::{Part, Response};
use coap_types::option_number::{BLOCK1, BLOCK2, CONTENT_FORMAT, ETAG, OBSERVE};
use coap_types::{Block, Code, MAX_NUM, MAX_UINT_LEN, OptionList, Tag, UintBytes, uint_bytes};
use std::alloc::Allocator;
use std::marker::Model;

// The most options that a response of a server has: ETag, Observe, Content-Format, Block2 and
// Block1.
const MAX_OPTIONS: usize = 5;

const _: () = prove!(MAX_OPTIONS == 5);

/// A response with all its options, each as its bytes (RFC 7252, section 5.2). It fits a message
/// with any token.
#[derive(Drop)]
pub(crate) struct FullResponse<'a, A: Allocator> {
    code: Code,
    tag: Option<Tag>,
    observe: Option<UintBytes>,
    format: Option<UintBytes>,
    block2: Option<UintBytes>,
    block1: Option<UintBytes>,
    payload: Part<'a, A>,
}

impl<'a, A: Allocator> Model for FullResponse<'a, A> {
    ghost use Rattle.coap_exchange.specs.AnswererTrace.{Response};
    ghost use Rattle.coap_exchange.specs.ShortAnswers.{IsShortAnswer};
    ghost use Rattle.coap_server.specs.Object.FullResponses.{response_as};

    ghost Value = { Response };

    ghost view = { λ r. response_as r.code.0 r.tag r.observe r.format r.block2 r.block1 r.payload };

    ghost invariant = { λ r.
        IsShortAnswer (response_as r.code.0 r.tag r.observe r.format r.block2 r.block1 r.payload) };
}

// The bytes that spell a number, where there is one.
fn number_bytes(number: Option<u32>) -> Option<UintBytes>
    ensures bytes { result ≡ option_map uint number }
    ensures few { IfSome result (λ bytes. length bytes ≤ MAX_UINT_LEN) }
{
    Some(uint_bytes(number?))
}

// The bytes of a Block option, where there is one.
fn block_bytes(block: Option<Block>) -> Option<UintBytes>
    requires num { IfSome block (λ b. b.num ≤ MAX_NUM) }
    ensures bytes { result ≡ option_map uint (option_map block_value block) }
    ensures number { result ≡ option_map uint (block_number block) }
    ensures few { IfSome result (λ bytes. length bytes ≤ MAX_UINT_LEN) }
{
    block?.write()
}

// The number of a Content-Format.
fn format_number(format: Option<u16>) -> Option<u32>
    ensures { result ≡ format }
{
    Some(u32::from(format?))
}

// The bytes of an entity-tag.
fn tag_slice(tag: &Option<Tag>) -> Option<&[u8]>
    ensures { option_copied result ≡ tag.now }
{
    match tag {
        None => None,
        Some(tag) => Some(tag.as_slice()),
    }
}

// The bytes of a number.
fn uint_slice(bytes: &Option<UintBytes>) -> Option<&[u8]>
    ensures { option_copied result ≡ bytes.now }
{
    match bytes {
        None => None,
        Some(bytes) => Some(bytes.as_slice()),
    }
}

impl<'p, A: Allocator> FullResponse<'p, A> {
    /// What the store answers, with Observe and Block1 where they are given (RFC 7641, section 4.2;
    /// RFC 7959, section 2.3).
    #[inline(always)]
    pub(crate) fn of(
        response: Response<'p, A>,
        observe: Option<u32>,
        block1: Option<Block>,
    ) -> FullResponse<'p, A>
        requires fits { Fits (reply_of response) }
        requires num { IfSome block1 (λ b. b.num ≤ MAX_NUM) }
        ensures { result ≡ response_with (reply_of response.entry) observe (option_map block_value block1) }
    {
        FullResponse {
            code: response.code,
            tag: response.tag,
            observe: number_bytes(observe),
            format: number_bytes(format_number(response.format)),
            block2: block_bytes(response.block2),
            block1: block_bytes(block1),
            payload: response.part,
        }
    }

    /// A code without a payload, with Block1 where it is given.
    pub(crate) fn bare(code: Code, block1: Option<Block>) -> FullResponse<'p, A>
        requires role { role_of code.0 ≡ role.Response }
        requires num { IfSome block1 (λ b. b.num ≤ MAX_NUM) }
        ensures code { result.code ≡ code.0 }
        ensures options { result.options ≡ uint_option BLOCK1 (option_map block_value block1) }
        ensures payload { result.payload ≡ [] }
    {
        FullResponse {
            code,
            tag: None,
            observe: None,
            format: None,
            block2: None,
            block1: block_bytes(block1),
            payload: Part::lent(&[]),
        }
    }

    /// Its options, to be lent to `with`.
    pub(crate) fn options(&self) -> OptionList<'_, MAX_OPTIONS>
        ensures { result ≡ self.now.options }
    {
        let mut options = OptionList::new();
        options.push_some(ETAG, tag_slice(&self.tag));
        options.push_some(OBSERVE, uint_slice(&self.observe));
        options.push_some(CONTENT_FORMAT, uint_slice(&self.format));
        options.push_some(BLOCK2, uint_slice(&self.block2));
        options.push_some(BLOCK1, uint_slice(&self.block1));
        options
    }

    /// As the exchanges send it, with its options.
    pub(crate) fn with<'a>(&'a self, options: &'a OptionList<'a, MAX_OPTIONS>) -> Answer<'a>
        requires own { options.now ≡ self.now.options }
        ensures same { result ≡ self.now }
        ensures sendable { (token : List ℕ) → length token ≤ max_token_len → IsAnswerWith token result }
    {
        notifiable_law();
        Answer {
            code: self.code,
            options: options.as_slice(),
            payload: self.payload.as_slice(),
        }
    }
}
