//! The response to the request that was handed up.
ghost use Rattle.std.specs.Prelude.{◌≡◌, ◌≤◌, [], IfSome, length};
ghost use Rattle.std.specs.Option.{option_map};
ghost use Rattle.coap_types.specs.declared.token.TheConstants.{MAX_TOKEN_LEN as max_token_len};
ghost use Rattle.coap_types.specs.BlockValue.{block_value};
ghost use Rattle.coap_types.specs.OptionValues.{uint_option};
ghost use Rattle.coap_types.specs.Roles.{role_of};
ghost use Rattle.coap_types.specs.declared.role.Role.TheVariants as role;
ghost use Rattle.coap_layer.specs.Trace as below;
ghost use Rattle.coap_exchange.specs.AnswererLaw.{Step};
ghost use Rattle.coap_exchange.specs.AnswererTrace.{Answers};
ghost use Rattle.coap_exchange.specs.Machine.AnswererShown.{MayAnswer};
ghost use Rattle.coap_server.specs.Object.Shown.{kept_of};

use crate::server::full_response::FullResponse;
use crate::server::parts::Parts;
use coap_exchange::{Answerer, Asked};
use coap_resource::Store;
use coap_types::option_number::BLOCK1;
use coap_types::{Block, Code, MAX_NUM};
use std::alloc::Allocator;
use std::hash::BuildHasher;

/// Answers the request that was handed up (RFC 7252, sections 5.2.1 and 5.2.3). It is not refused
/// memory.
#[inline(always)]
pub(crate) fn answer<A: Allocator + Copy, H: BuildHasher>(
    exchanges: &mut Answerer<A, H>,
    asked: &Asked,
    response: &FullResponse<'_, A>,
)
    requires may { MayAnswer exchanges.old asked.now }
    requires short { length asked.now.token ≤ max_token_len }
    ensures step { (sent : below.Answer)
        × Step exchanges.old.state (Answers asked.now response.now sent) exchanges.new.state }
    ensures before { exchanges.new.before ≡ exchanges.old.before }
{
    let options = response.options();
    exchanges.answer(asked, &response.with(&options));
}

/// Answers the request that was handed up with a code, and with Block1 where it is given: nothing
/// was applied.
#[inline(always)]
pub(crate) fn answer_code<S: Store<A>, A: Allocator + Copy, H: BuildHasher>(
    parts: &mut Parts<S, A, H>,
    asked: &Asked,
    code: Code,
    block1: Option<Block>,
)
    requires may { MayAnswer parts.old.exchanges asked.now }
    requires short { length asked.now.token ≤ max_token_len }
    requires role { role_of code.0 ≡ role.Response }
    requires num { IfSome block1 (λ b. b.num ≤ MAX_NUM) }
    ensures step { (sent : below.Answer) × Step parts.old.exchanges.state
        (Answers asked.now (record {
          code = code.0;
          options = uint_option BLOCK1 (option_map block_value block1);
          payload = [];
        }) sent)
        parts.new.exchanges.state }
    ensures before { parts.new.exchanges.before ≡ parts.old.exchanges.before }
    ensures kept { kept_of parts.new
        ≡ record (kept_of parts.old) { exchanges = parts.new.exchanges.state; applied = [] } }
    ensures uploads { parts.new.uploads ≡ parts.old.uploads }
{
    answer(
        &mut parts.exchanges,
        asked,
        &FullResponse::bare(code, block1),
    );
    parts.applied = None;
}
