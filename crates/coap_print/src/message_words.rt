//! A datagram in words.
ghost use Rattle.std.specs.Prelude.{◌≡◌, ◌∷◌, ◌/◌, ◌%◌, [], length, List, ℕ, Some};
ghost use Rattle.std.specs.Fmt.{WritesOnOk};
ghost use Rattle.std.specs.Option.{option_map};
ghost use Rattle.hex.specs.Hex.{encode_lower};
ghost use Rattle.coap_types.specs.Bytes.{AreBytes};
ghost use Rattle.coap_types.specs.CoapOption.{option_of};
ghost use Rattle.coap_types.specs.RequestPath.{path_of};
ghost use Rattle.coap_print.specs.CodeNames.{client_error_names, code_name, name_at, request_names, server_error_names};
ghost use Rattle.coap_print.specs.CodeNames.{is_request_code, success_names};
ghost use Rattle.coap_print.specs.Datagrams.{asked_text, block_text, bytes_text, datagram_text, fault_text, head_text};
ghost use Rattle.coap_print.specs.Datagrams.{is_listed, length_text, message_text, name_text, named_text, option_text};
ghost use Rattle.coap_print.specs.Datagrams.{options_text, value_text};
ghost use Rattle.coap_print.specs.OptionNames.{option_form};
ghost use Rattle.coap_print.specs.Printable.{ArePrintable, AreShown};
ghost use Rattle.coap_print.specs.Segments.{path_text};

use crate::place_words::{write_next, write_slash};
use coap_codec::{Fault, View, decode, one_reading, spelling_law};
use coap_types::option_number::{
    ACCEPT, BLOCK1, BLOCK2, CONTENT_FORMAT, ETAG, IF_MATCH, IF_NONE_MATCH, OBSERVE, PROXY_SCHEME,
    PROXY_URI, SIZE1, SIZE2, URI_HOST, URI_PATH, URI_PORT,
};
use coap_types::{Block, Code, Opt, uint_of};
use std::fmt;

/// A fault in words: the number of the reason, its name and its place.
#[derive(Clone, Copy)]
pub struct FaultWords(pub Fault);

impl fmt::Display for FaultWords {
    ghost output = { λ words. Some (fault_text words.0.reason words.0.at) };

    fn fmt<W: fmt::Write>(&self, f: &mut fmt::Formatter<W>) -> fmt::Result {
        let number = self.0.reason.number();
        let reason = self.0.reason;
        let at = self.0.at;
        write!(f, "fault {number} {reason} at {at}")
    }
}

/// A datagram in words: type, code, Message ID and token, what the code says, the path of a request, each option and
/// how many bytes the payload has; of one that spells no message its first fault. No byte of it is printed as it
/// is but where it is a letter, a digit or a sign of ASCII.
#[derive(Clone, Copy)]
pub struct DatagramWords<'a>(pub &'a [u8]);

impl<'a> fmt::Display for DatagramWords<'a> {
    ghost output = { λ words. Some (datagram_text words.0.now) };

    fn fmt<W: fmt::Write>(&self, f: &mut fmt::Formatter<W>) -> fmt::Result {
        write_datagram(f, self.0)
    }
}

/// What is written of a datagram takes a terminal for no command.
pub fn datagram_law()
    // Whatever bytes a datagram has, each character of its words is a printable one of ASCII, or a blank.
    ensures { (bytes : List ℕ) → AreBytes bytes → AreShown (datagram_text bytes) }
{
    one_reading();
    spelling_law();
}

fn write_datagram<W: fmt::Write>(f: &mut fmt::Formatter<W>, bytes: &[u8]) -> fmt::Result
    ensures { WritesOnOk W.write_str_gives f.old result (datagram_text bytes.now) f.new }
{
    match decode(bytes) {
        Ok(message) => write_message(f, &message),
        Err(fault) => {
            let words = FaultWords(fault);
            write!(f, "{words}")
        }
    }
}

fn write_message<W: fmt::Write>(f: &mut fmt::Formatter<W>, message: &View<'_>) -> fmt::Result
    ensures { WritesOnOk W.write_str_gives f.old result (message_text message.now) f.new }
{
    write_head(f, message)?;
    write_name(f, message.code())?;
    write_asked(f, message)?;
    write_options(f, message)?;
    write_len(f, message.payload().len())
}

// The type, the code, the Message ID and the token.
fn write_head<W: fmt::Write>(f: &mut fmt::Formatter<W>, message: &View<'_>) -> fmt::Result
    ensures { WritesOnOk W.write_str_gives f.old result (head_text message.now) f.new }
{
    let kind = message.kind();
    let code = message.code();
    let id = message.id().0.to_be_bytes();
    write!(f, "{kind} {code} ")?;
    write_hex(f, &id)?;
    f.write_str(" [")?;
    write_hex(f, message.token())?;
    f.write_str("]")
}

/// What a code is called, a space in front; nothing where it has no name.
pub fn write_name<W: fmt::Write>(f: &mut fmt::Formatter<W>, code: Code) -> fmt::Result
    // What is written of a code is a blank and its name, and nothing of a code that has none.
    ensures { WritesOnOk W.write_str_gives f.old result (name_text code.0) f.new }
{
    match code_name(code) {
        Some(name) => write!(f, " {name}"),
        None => Ok(()),
    }
}

// The path of a request, a space in front.
fn write_asked<W: fmt::Write>(f: &mut fmt::Formatter<W>, message: &View<'_>) -> fmt::Result
    ensures { WritesOnOk W.write_str_gives f.old result (asked_text message.now) f.new }
{
    if is_request(message.code()) {
        f.write_str(" ")?;
        write_path(f, message)
    } else {
        Ok(())
    }
}

/// How many bytes there are, a comma in front; nothing where there are none.
pub fn write_len<W: fmt::Write>(f: &mut fmt::Formatter<W>, len: usize) -> fmt::Result
    // What is written of a number of bytes is that number behind a comma, and nothing of none.
    ensures { WritesOnOk W.write_str_gives f.old result (length_text len) f.new }
{
    if len > 0 {
        write!(f, ", {len} B")
    } else {
        Ok(())
    }
}

// A code of class 0 but that of an Empty message (RFC 7252, section 12.1.1).
fn is_request(code: Code) -> bool
    ensures { result ≡ is_request_code code.0 }
{
    code.class() == 0 && code != Code::EMPTY
}

// What a code of class 0 is called.
fn request_name(detail: u8) -> Option<&'static str>
    ensures { option_map (λ name. name.now) result ≡ name_at request_names detail }
{
    match detail {
        0 => Some("Empty"),
        1 => Some("GET"),
        2 => Some("POST"),
        3 => Some("PUT"),
        4 => Some("DELETE"),
        _ => None,
    }
}

// .. of class 2.
fn success_name(detail: u8) -> Option<&'static str>
    ensures { option_map (λ name. name.now) result ≡ name_at success_names detail }
{
    match detail {
        1 => Some("Created"),
        2 => Some("Deleted"),
        3 => Some("Valid"),
        4 => Some("Changed"),
        5 => Some("Content"),
        31 => Some("Continue"),
        _ => None,
    }
}

// .. of class 4.
fn client_error_name(detail: u8) -> Option<&'static str>
    ensures { option_map (λ name. name.now) result ≡ name_at client_error_names detail }
{
    match detail {
        0 => Some("Bad Request"),
        1 => Some("Unauthorized"),
        2 => Some("Bad Option"),
        3 => Some("Forbidden"),
        4 => Some("Not Found"),
        5 => Some("Method Not Allowed"),
        6 => Some("Not Acceptable"),
        8 => Some("Request Entity Incomplete"),
        12 => Some("Precondition Failed"),
        13 => Some("Request Entity Too Large"),
        15 => Some("Unsupported Content-Format"),
        _ => None,
    }
}

// .. of class 5.
fn server_error_name(detail: u8) -> Option<&'static str>
    ensures { option_map (λ name. name.now) result ≡ name_at server_error_names detail }
{
    match detail {
        0 => Some("Internal Server Error"),
        1 => Some("Not Implemented"),
        2 => Some("Bad Gateway"),
        3 => Some("Service Unavailable"),
        4 => Some("Gateway Timeout"),
        5 => Some("Proxying Not Supported"),
        _ => None,
    }
}

/// What a code is called (RFC 7252, sections 4.1, 12.1.1 and 12.1.2, and RFC 7959, section 6).
pub fn code_name(code: Code) -> Option<&'static str>
    // The name is the one that the registry has for the class and the detail; a code that is not there has none.
    ensures { option_map (λ name. name.now) result ≡ code_name (code.0 / 32) (code.0 % 32) }
{
    match code.class() {
        0 => request_name(code.detail()),
        2 => success_name(code.detail()),
        4 => client_error_name(code.detail()),
        5 => server_error_name(code.detail()),
        _ => None,
    }
}

// The path that the options of a message say.
fn write_path<W: fmt::Write>(f: &mut fmt::Formatter<W>, message: &View<'_>) -> fmt::Result
    ensures { WritesOnOk W.write_str_gives f.old result (path_text (path_of message.now.options)) f.new }
{
    let mut is_first = true;
    for option in message.options() {
        if option.number == URI_PATH {
            write_next(f, is_first, option.value)?;
            is_first = false;
        }
    }
    write_slash(f, is_first)
}

// Each option but the path of a request.
fn write_options<W: fmt::Write>(f: &mut fmt::Formatter<W>, message: &View<'_>) -> fmt::Result
    ensures { WritesOnOk W.write_str_gives f.old result
        (options_text message.now.code message.now.options) f.new }
{
    let code = message.code();
    for option in message.options() {
        if is_listed(code, &option) {
            write_option(f, &option)?;
        }
    }
    Ok(())
}

// It stands among the options: it is none of the path of a request.
fn is_listed(code: Code, option: &Opt<'_>) -> bool
    ensures { result ≡ is_listed code.0 (option_of option.now) }
{
    !is_request(code) || option.number != URI_PATH
}

// An option, a comma in front.
fn write_option<W: fmt::Write>(f: &mut fmt::Formatter<W>, option: &Opt<'_>) -> fmt::Result
    ensures { WritesOnOk W.write_str_gives f.old result (option_text (option_of option.now)) f.new }
{
    f.write_str(", ")?;
    write_named(f, option)
}

// How the value of an option is told.
#[derive(Clone, Copy)]
enum Form {
    Bytes,
    Number,
    Block,
}

// What an option is called, and how its value is told.
fn option_form(number: u16) -> Option<(&'static str, Form)>
    ensures { option_map (λ row. (row.0.now, row.1)) result ≡ option_form number }
{
    match number {
        IF_MATCH => Some(("If-Match", Form::Bytes)),
        URI_HOST => Some(("Uri-Host", Form::Bytes)),
        ETAG => Some(("ETag", Form::Bytes)),
        IF_NONE_MATCH => Some(("If-None-Match", Form::Bytes)),
        OBSERVE => Some(("Observe", Form::Number)),
        URI_PORT => Some(("Uri-Port", Form::Number)),
        URI_PATH => Some(("Uri-Path", Form::Bytes)),
        CONTENT_FORMAT => Some(("Content-Format", Form::Number)),
        ACCEPT => Some(("Accept", Form::Number)),
        BLOCK2 => Some(("Block2", Form::Block)),
        BLOCK1 => Some(("Block1", Form::Block)),
        SIZE2 => Some(("Size2", Form::Number)),
        PROXY_URI => Some(("Proxy-Uri", Form::Bytes)),
        PROXY_SCHEME => Some(("Proxy-Scheme", Form::Bytes)),
        SIZE1 => Some(("Size1", Form::Number)),
        _ => None,
    }
}

// The name and the value; the number and the bytes of one that has no name here.
fn write_named<W: fmt::Write>(f: &mut fmt::Formatter<W>, option: &Opt<'_>) -> fmt::Result
    ensures { WritesOnOk W.write_str_gives f.old result
        (named_text (option_form option.now.number) (option_of option.now)) f.new }
{
    let number = option.number;
    match option_form(number) {
        Some((name, form)) => {
            f.write_str(name)?;
            write_value(f, form, option.value)
        }
        None => {
            write!(f, "option {number}")?;
            write_bytes(f, option.value)
        }
    }
}

// A value, a space in front: a number, a block, or its bytes, as where it is not what it should be.
fn write_value<W: fmt::Write>(f: &mut fmt::Formatter<W>, form: Form, value: &[u8]) -> fmt::Result
    ensures { WritesOnOk W.write_str_gives f.old result (value_text form value.now) f.new }
{
    match (form, uint_of(value), Block::read(value)) {
        (Form::Number, Some(number), _) => write!(f, " {number}"),
        (Form::Block, _, Some(block)) => write_block(f, block),
        _ => write_bytes(f, value),
    }
}

// A block, a space in front: NUM/M/size (RFC 7959, section 3).
fn write_block<W: fmt::Write>(f: &mut fmt::Formatter<W>, block: Block) -> fmt::Result
    ensures { WritesOnOk W.write_str_gives f.old result (block_text (Some block) []) f.new }
{
    let num = block.num;
    let more = block.more as u8;
    let size = block.szx.size();
    write!(f, " {num}/{more}/{size}")
}

// Bytes in hex, a space in front; nothing where there are none.
fn write_bytes<W: fmt::Write>(f: &mut fmt::Formatter<W>, bytes: &[u8]) -> fmt::Result
    ensures { WritesOnOk W.write_str_gives f.old result (bytes_text bytes.now) f.new }
{
    if bytes.is_empty() {
        return Ok(());
    }
    f.write_str(" ")?;
    write_hex(f, bytes)
}

/// Writes bytes in hex.
pub fn write_hex<W: fmt::Write>(f: &mut fmt::Formatter<W>, bytes: &[u8]) -> fmt::Result
    // What is written of bytes is two digits each, in lower case.
    ensures { WritesOnOk W.write_str_gives f.old result (encode_lower bytes.now) f.new }
{
    for byte in bytes {
        write_hex_byte(f, *byte)?;
    }
    Ok(())
}

/// What is written of bytes in hex takes a terminal for no command.
pub fn hex_law()
    // Whatever the bytes, each digit that is written of them is a printable character of ASCII.
    ensures { (bytes : List ℕ) → AreBytes bytes → ArePrintable (encode_lower bytes) }
{}

// A byte in hex: two digits.
fn write_hex_byte<W: fmt::Write>(f: &mut fmt::Formatter<W>, byte: u8) -> fmt::Result
    ensures { WritesOnOk W.write_str_gives f.old result (encode_lower (byte ∷ [])) f.new }
{
    write!(f, "{byte:02x}")
}
