//! The options of the requests of a client (RFC 7252, section 5.10).
ghost use Rattle.std.specs.Prelude.{◌≡◌, ◌<◌, ◌≤◌, ◌+◌, ◌++◌, ◌∷◌, [], length, map, nat_lt, option_copied};
ghost use Rattle.std.specs.Option.{option_map};
ghost use Rattle.coap_types.specs.declared.path.TheConstants.{MAX_SEGMENTS as max_segments};
ghost use Rattle.coap_types.specs.declared.tag.TheConstants.{MAX_TAGS as max_tags};
ghost use Rattle.coap_types.specs.CoapOption.{option};
ghost use Rattle.coap_types.specs.OptionValues.{option_with};
ghost use Rattle.coap_types.specs.Path.{segments_of};
ghost use Rattle.coap_types.specs.Uint.{uint};
ghost use Rattle.coap_codec.specs.Spelling.{options_bytes};
ghost use Rattle.coap_client.specs.Queue.{block_option_number};
ghost use Rattle.coap_client.specs.Requests.{after_path, before_path, options_of, path_options};
ghost use Rattle.coap_client.specs.Trace.{Request as Asking};
ghost use Rattle.coap_client.specs.Object.CallShown.{IsGood, is_long, is_long_path, shown_request};
ghost use Rattle.coap_client.specs.Object.CallShown.{told as told_value, told_number};

use crate::MAX_OPTIONS_LEN;
use coap_codec::options_len;
use coap_types::option_number::{
    ACCEPT, BLOCK1, BLOCK2, CONTENT_FORMAT, ETAG, IF_MATCH, IF_NONE_MATCH, OBSERVE, URI_PATH,
};
use coap_types::{Method, OptionList, Path, Request, Tags, UintBytes, uint_bytes};
use std::alloc::Allocator;

/// The most options that a request has: the tags, If-None-Match, the path, Content-Format or
/// Accept, and a Block option.
pub const MAX_OPTIONS: usize = 24;

const _: () = prove!(MAX_OPTIONS == 24);

// Adds an option for each tag.
fn push_tags<'a>(options: &mut OptionList<'a, MAX_OPTIONS>, number: u16, tags: &'a Tags)
    requires room { length options.old + length tags.now ≤ MAX_OPTIONS }
    ensures list { options.new ≡ options.old ++ map (option number) tags.now }
    ensures len { length options.new ≡ length options.old + length tags.now }
{
    for tag in tags.as_slice() {
        options.push(number, tag.as_slice());
    }
}

// Adds an option for each segment (RFC 7252, section 5.10.1).
fn push_path<'a, A: Allocator + Copy>(
    options: &mut OptionList<'a, MAX_OPTIONS>,
    path: &'a [Vec<u8, A>],
)
    requires room { length options.old + length path.now ≤ MAX_OPTIONS }
    ensures list { options.new ≡ options.old ++ path_options (segments_of path.now) }
    ensures len { length options.new ≡ length options.old + length path.now }
{
    for segment in path {
        options.push(URI_PATH, segment.as_slice());
    }
}

/// The bytes that were spelled, where there are some.
pub fn bytes_in(bytes: &Option<UintBytes>) -> Option<&[u8]>
    ensures { option_copied result ≡ bytes.now }
{
    Some(bytes.as_ref()?.as_slice())
}

/// The value of the option after the path: Accept of a GET, Content-Format of a POST or a PUT.
pub fn format_value<A: Allocator + Copy>(request: &Request<A>) -> Option<UintBytes>
    ensures { result ≡ told_value (shown_request request.now) }
{
    let number = match request.method {
        Method::Get => request.accept,
        Method::Post | Method::Put => request.format,
        Method::Delete => None,
    };
    Some(uint_bytes(u32::from(number?)))
}

/// Puts the options of a call into an empty list, in the order of their numbers, with that Block option (RFC 7252,
/// section 5.10). The list stays where it is: it is long, and to move it costs more than to fill it.
#[inline(always)]
pub fn push_call<'a, A: Allocator + Copy>(
    options: &mut OptionList<'a, MAX_OPTIONS>,
    request: &'a Request<A>,
    format: Option<&'a [u8]>,
    number: u16,
    block: Option<&'a [u8]>,
)
    requires empty { options.old ≡ [] }
    requires format { option_copied format ≡ told_value (shown_request request.now) }
    ensures { options.new ≡ options_of (shown_request request.now) ++ option_with number (option_copied block.entry) }
{
    request.ranges();
    push_before(options, request);
    push_path(options, request.path.segments());
    push_after(options, request.method, format);
    options.push_some(number, block);
}

// The options before the path.
fn push_before<'a, A: Allocator + Copy>(
    options: &mut OptionList<'a, MAX_OPTIONS>,
    request: &'a Request<A>,
)
    requires { options.old ≡ [] }
    ensures list { options.new ≡ before_path request.now.method (shown_request request.now) }
    ensures few { length options.new ≤ max_tags + 1 }
{
    request.ranges();
    match request.method {
        Method::Get => push_tags(options, ETAG, &request.etags),
        Method::Post | Method::Put | Method::Delete => {
            push_tags(options, IF_MATCH, &request.if_match);
            if request.if_none_match {
                options.push(IF_NONE_MATCH, &[]);
            }
        }
    }
}

// The option after the path.
fn push_after<'a>(
    options: &mut OptionList<'a, MAX_OPTIONS>,
    method: Method,
    format: Option<&'a [u8]>,
)
    requires room { length options.old + 1 < MAX_OPTIONS }
    ensures list { (r : Asking) → option_copied format.entry ≡ option_map uint (told_number method r)
        → options.new ≡ options.old ++ after_path method r }
    ensures len { length options.new ≤ length options.old + 1 }
{
    match method {
        Method::Get => options.push_some(ACCEPT, format),
        Method::Post | Method::Put => options.push_some(CONTENT_FORMAT, format),
        Method::Delete => {}
    }
}

/// The options of a GET of that path, with those values of Observe and Block2.
pub fn get_options<'a, A: Allocator + Copy>(
    observe: Option<&'a [u8]>,
    path: &'a [Vec<u8, A>],
    block: Option<&'a [u8]>,
) -> OptionList<'a, MAX_OPTIONS>
    requires { length path.now ≤ max_segments }
    ensures { result ≡ option_with OBSERVE (option_copied observe.entry)
        ++ (path_options (segments_of path.now) ++ option_with BLOCK2 (option_copied block.entry)) }
{
    let mut options = OptionList::new();
    options.push_some(OBSERVE, observe);
    push_path(&mut options, path);
    options.push_some(BLOCK2, block);
    options
}

// The longest value of a Block option (RFC 7959, section 2.2).
const LONGEST_BLOCK: [u8; 3] = [255; 3];

// The number of the Block option of the requests of a method.
fn block_option_number(method: Method) -> u16
    ensures number { result ≡ block_option_number method }
    ensures least { 17 ≤ result }
    ensures most { result < 65536 }
{
    match method {
        Method::Get => BLOCK2,
        Method::Post => BLOCK1,
        Method::Put => BLOCK1,
        Method::Delete => BLOCK1,
    }
}

/// Whether the options of the longest message of a call are too long. It takes no memory.
pub fn is_long_request<A: Allocator + Copy>(request: &Request<A>) -> bool
    ensures { result ≡ is_long (shown_request request.now) }
{
    request.ranges();
    let format = format_value(request);
    let number = block_option_number(request.method);
    let longest = LONGEST_BLOCK;
    let mut options = OptionList::new();
    push_call(
        &mut options,
        request,
        bytes_in(&format),
        number,
        Some(&longest),
    );
    exceed(&options)
}

/// Whether the options of the longest message of an observation are too long. It takes no memory.
pub fn is_long_path<A: Allocator + Copy>(path: &Path<A>) -> bool
    ensures { result ≡ is_long_path path.now }
{
    let longest = LONGEST_BLOCK;
    let options = get_options(None, path.segments(), Some(&longest));
    exceed(&options)
}

// Whether options take over `MAX_OPTIONS_LEN` bytes.
fn exceed(options: &OptionList<'_, MAX_OPTIONS>) -> bool
    requires { IsGood 0 options.now }
    ensures { result ≡ nat_lt MAX_OPTIONS_LEN (length (options_bytes 0 options.now)) }
{
    match options_len(options.as_slice()) {
        Some(len) => len > MAX_OPTIONS_LEN,
        None => true,
    }
}
