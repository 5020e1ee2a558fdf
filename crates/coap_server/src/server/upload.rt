//! What is done with a block of an upload (RFC 7959, section 2.5).
ghost use Rattle.std.specs.Prelude.{◌≡◌, ◌<◌, ◌≤◌, OnErr, OnOk, length};
ghost use Rattle.coap_types.specs.declared.token.TheConstants.{MAX_TOKEN_LEN as max_token_len};
ghost use Rattle.coap_types.specs.CoapOption.{options_of};
ghost use Rattle.coap_resource.specs.Serves.{question_of};
ghost use Rattle.coap_exchange.specs.Machine.AnswererShown.{MayAnswer};
ghost use Rattle.coap_server.specs.Object.Handled.{IsUploaded};
ghost use Rattle.coap_server.specs.Object.Shown.{kept_of, seen};

use crate::server::answering::answer_code;
use crate::server::handling::handle_whole;
use crate::server::parts::Parts;
use coap_block::{Took, UploadKey};
use coap_exchange::Asked;
use coap_resource::{Asking, Store};
use coap_types::{Block, Code, MAX_NUM, Method, Opt, Path};
use std::alloc::{AllocError, Allocator};
use std::hash::BuildHasher;

/// A block of an upload, and what it is part of.
#[derive(Drop)]
pub(crate) struct Upload<'a, A: Allocator> {
    /// PUT or POST.
    pub(crate) method: Method,
    /// Of which resource.
    pub(crate) path: Path<A>,
    /// The options of the request that are recognised, in order.
    pub(crate) options: &'a [Opt<'a>],
    /// Its Block1.
    pub(crate) block: Block,
    /// The bytes of the block.
    pub(crate) payload: &'a [u8],
}

/// Does what a block of an upload says (RFC 7959, sections 2.5 and 2.9). After an `Err` only the
/// exchanges are not as before; they can be taken back.
pub(crate) fn handle_block<S: Store<A>, A: Allocator + Copy, H: BuildHasher>(
    parts: &mut Parts<S, A, H>,
    asked: &Asked,
    upload: Upload<'_, A>,
) -> Result<(), AllocError>
    requires may { MayAnswer parts.old.exchanges asked.now }
    requires short { length asked.now.token ≤ max_token_len }
    requires num { upload.block.num ≤ MAX_NUM }
    requires timed { parts.old.observers.clock ≤ parts.old.clock.0 }
    ensures handled { OnOk result (IsUploaded (seen S.content parts.old) asked.now
        (record {
          method = upload.entry.method;
          path = upload.entry.path;
          options = options_of upload.entry.options.now;
          body = upload.entry.payload.now;
          szx = parts.old.szx;
        })
        upload.entry.block (seen S.content parts.new)) }
    ensures timed { OnOk result (parts.new.observers.clock ≤ parts.new.clock.0) }
    ensures before { parts.new.exchanges.before ≡ parts.old.exchanges.before }
    ensures err { OnErr result
        (record (kept_of parts.new) { exchanges = parts.old.exchanges.state } ≡ kept_of parts.old) }
{
    let Upload {
        method,
        path,
        options,
        block,
        payload,
    } = upload;
    let key = UploadKey {
        from: asked.from,
        path,
        method,
    };
    match parts.uploads.take(parts.clock, &key, block, payload)? {
        Took::Refused(why) => {
            answer_code(parts, asked, why.code(), None);
            Ok(())
        }
        Took::More(next) => {
            answer_code(parts, asked, Code::CONTINUE, Some(next));
            Ok(())
        }
        Took::Whole(body) => {
            let asking = Asking {
                method,
                path: &key.path,
                options,
                body: &body,
                szx: parts.szx,
            };
            match handle_whole(parts, asked, &asking) {
                Ok(()) => Ok(()),
                Err(error) => {
                    parts.uploads.undo();
                    Err(error)
                }
            }
        }
    }
}
