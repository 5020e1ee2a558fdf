//! What is asked of a request before anything that the server keeps is looked at.
ghost use Rattle.std.specs.Prelude.{◌≡◌, ◌≤◌, nat_lt, ℕ, List, Some, IfOk, IfSome, is_none, length};
ghost use Rattle.coap_types.specs.CoapOption.{CoapOption, options_of};
ghost use Rattle.coap_types.specs.OptionValues.{uint_at};
ghost use Rattle.coap_types.specs.Recognised.{Recognised, lacks_critical, recognised};
ghost use Rattle.coap_types.specs.RequestPath.{path_of};
ghost use Rattle.coap_types.specs.declared.direction.Direction.TheVariants as direction;
ghost use Rattle.coap_codec.specs.Message.{Message};
ghost use Rattle.coap_resource.specs.RequestOptions.{block_said};
ghost use Rattle.coap_server.specs.Checks.{asked_by, asks, bad_by, is_reserved, question, uploading};
ghost use Rattle.coap_server.specs.Checks.{verdict_on};
ghost use Rattle.coap_server.specs.Object.Checked.{CanBeAnswered, verdict_as};

use crate::server::observation::number_at;
use coap_resource::has;
use coap_types::option_number::{BLOCK1, BLOCK2, PROXY_SCHEME, PROXY_URI};
use coap_types::{
    Block, Code, Kind, MAX_NUM, MAX_SEGMENTS, Method, Opt, Path, PathRefusal, path_law,
};
use std::alloc::{AllocError, Allocator};

/// What the checks say of a request.
#[derive(Drop)]
pub(crate) enum Checked<A: Allocator> {
    /// It has no response.
    Ignored,
    /// It is refused with this code.
    Refused(Code),
    /// It asks for this, with its payload as the body.
    Asks(Method, Path<A>),
    /// It uploads a block of the body.
    Uploads(Method, Path<A>, Block),
}

// Whether a Block option says no block: its size is the reserved one (RFC 7959, section 2.2).
fn is_reserved(options: &[Opt<'_>], number: u16) -> bool
    ensures { result ≡ is_reserved (uint_at number (options_of options.now)) }
{
    match number_at(options, number) {
        Some(value) => Block::of(value).is_none(),
        None => false,
    }
}

// What is done where a critical option is not recognised: a Non-confirmable request has no response
// (RFC 7252, section 5.4.1).
fn bad_option<A: Allocator>(kind: Kind) -> Checked<A>
    ensures verdict { (szx : ℕ) (m : Message) → verdict_as szx m result ≡ bad_by kind }
    ensures sayable { CanBeAnswered result }
{
    match kind {
        Kind::Con => Checked::Refused(Code::BAD_OPTION),
        Kind::Non | Kind::Ack | Kind::Rst => Checked::Ignored,
    }
}

/// What the checks say, in their order, of a request with this code and these recognised options;
/// `bad`: whether a critical option is not recognised.
#[inline(always)]
pub(crate) fn check<A: Allocator + Copy>(
    alloc: A,
    kind: Kind,
    code: Code,
    options: &[Opt<'_>],
    bad: bool,
) -> Result<Checked<A>, AllocError>
    requires { (all : List CoapOption) × Recognised direction.Request all (options_of options.now) bad }
    ensures verdict { IfOk result (λ checked. (szx : ℕ) (m : Message) → m.kind ≡ kind → m.code ≡ code.0
        → asks m ≡ options_of options.now → lacks_critical direction.Request m.options ≡ bad
        → verdict_as szx m checked ≡ verdict_on szx m) }
    ensures sayable { IfOk result CanBeAnswered }
{
    if bad {
        return Ok(bad_option(kind));
    }
    if has(options, PROXY_URI) || has(options, PROXY_SCHEME) {
        return Ok(Checked::Refused(Code::PROXYING_NOT_SUPPORTED));
    }
    match Method::of(code) {
        None => Ok(Checked::Refused(Code::METHOD_NOT_ALLOWED)),
        Some(method) => check_options(alloc, method, options),
    }
}

// The same, of a request whose method is known: its path, and then its Block options.
fn check_options<A: Allocator + Copy>(
    alloc: A,
    method: Method,
    options: &[Opt<'_>],
) -> Result<Checked<A>, AllocError>
    requires { (all : List CoapOption) × (options_of options.now ≡ recognised direction.Request all) }
    ensures verdict { IfOk result (λ checked. (szx : ℕ) (m : Message) → asks m ≡ options_of options.now
        → verdict_as szx m checked ≡ asked_by szx (Some method) m) }
    ensures sayable { IfOk result CanBeAnswered }
{
    let Some(path) = asked_path(alloc, options)? else {
        return Ok(Checked::Refused(Code::BAD_REQUEST));
    };
    if is_reserved(options, BLOCK1) || is_reserved(options, BLOCK2) {
        return Ok(Checked::Refused(Code::BAD_REQUEST));
    }
    Ok(check_block(method, path, options))
}

// The path that the options ask for; None where it has too many segments.
fn asked_path<A: Allocator + Copy>(
    alloc: A,
    options: &[Opt<'_>],
) -> Result<Option<Path<A>>, AllocError>
    requires { (all : List CoapOption) × (options_of options.now ≡ recognised direction.Request all) }
    ensures path { IfOk result (λ path. IfSome path (λ p. p ≡ path_of (options_of options.now))) }
    ensures long { IfOk result (λ path. is_none path
        ≡ nat_lt MAX_SEGMENTS (length (path_of (options_of options.now)))) }
{
    path_law();
    match Path::of_options(alloc, options) {
        Ok(path) => Ok(Some(path)),
        Err(PathRefusal::Memory) => Err(AllocError),
        Err(PathRefusal::TooManySegments) => Ok(None),
        Err(PathRefusal::SegmentTooLong) => unreachable!(),
    }
}

// The same, of a request whose path is known: Block1 is of a PUT and a POST (RFC 7959, section 2.3).
fn check_block<A: Allocator>(method: Method, path: Path<A>, options: &[Opt<'_>]) -> Checked<A>
    ensures verdict { (szx : ℕ) (m : Message) → asks m ≡ options_of options.now → path ≡ path_of (asks m)
        → verdict_as szx m result ≡ uploading method (question szx method m) (block_said (uint_at BLOCK1 (asks m))) }
    ensures sayable { CanBeAnswered result }
{
    let Some(block) = block_at(options) else {
        return Checked::Asks(method, path);
    };
    match method {
        Method::Put => Checked::Uploads(method, path, block),
        Method::Post => Checked::Uploads(method, path, block),
        Method::Get | Method::Delete => Checked::Refused(Code::BAD_REQUEST),
    }
}

// The block that Block1 says.
fn block_at(options: &[Opt<'_>]) -> Option<Block>
    ensures block { result ≡ block_said (uint_at BLOCK1 (options_of options.now)) }
    ensures num { IfSome result (λ b. b.num ≤ MAX_NUM) }
{
    Block::of(number_at(options, BLOCK1)?)
}
