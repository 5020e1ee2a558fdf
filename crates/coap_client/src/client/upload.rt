//! A Block1 transfer of a call (RFC 7959, section 2.5).
ghost use Rattle.std.specs.Prelude.{◌≡◌};
ghost use Rattle.coap_client.specs.Calls.{sent, continued};
ghost use Rattle.coap_client.specs.Responses.{block_at};
ghost use Rattle.coap_types.specs.declared.option_number.TheConstants.{BLOCK1 as block1};
ghost use Rattle.coap_client.specs.Requests.{is_longer};
ghost use Rattle.coap_client.specs.Object.AnswerSteps.{HearsUpload};

use crate::client::heard::Heard;
use crate::client::report::{Report, code_report};
use crate::client::responses::block_at;
use coap_block::Upload;
use coap_codec::View;
use coap_types::option_number::BLOCK1;
use coap_types::{Code, Method};
use std::alloc::Allocator;

/// Whether the body is longer than a block.
pub fn is_longer<A: Allocator + Copy>(upload: &Upload<A>) -> bool
    ensures { result ≡ is_longer upload.now.state }
{
    let (block, _) = upload.next();
    block.num > 0 || block.more
}

/// What a POST or a PUT makes of an answer. A 2.31 is no final response.
pub fn hear_upload<A: Allocator + Copy>(
    upload: &mut Upload<A>,
    method: Method,
    m: &View<'_>,
) -> Heard<A>
    ensures { HearsUpload upload.old.state (sent method upload.old.state m.now) result upload.new }
{
    if m.code() == Code::CONTINUE && is_longer(upload) {
        return hear_continue(upload, m);
    }
    let (block, _) = upload.next();
    if block.more && m.code().0 < Code::BAD_REQUEST.0 {
        return Heard::Over {
            is_final: true,
            report: Report::BadBlock,
        };
    }
    Heard::Over {
        is_final: true,
        report: code_report(method, m.code()),
    }
}

// What a POST or a PUT makes of a 2.31: the next block is sent where the answer lets it be.
fn hear_continue<A: Allocator + Copy>(upload: &mut Upload<A>, m: &View<'_>) -> Heard<A>
    ensures { HearsUpload upload.old.state (continued upload.old.state (block_at block1 m.now)) result upload.new }
{
    let Some(answer) = block_at(BLOCK1, m) else {
        return Heard::Over {
            is_final: false,
            report: Report::BadBlock,
        };
    };
    if upload.accepted(answer) {
        Heard::Asks
    } else {
        Heard::Over {
            is_final: false,
            report: Report::BadBlock,
        }
    }
}
