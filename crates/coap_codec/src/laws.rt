//! Laws of the message format: one reading, one spelling (RFC 7252, section 3).
ghost use Rattle.coap_codec.specs.BoundedSpelling.{BoundedSpelling};
ghost use Rattle.coap_codec.specs.IsSpelled.{IsTested};
ghost use Rattle.coap_codec.specs.OfBytes.{BytesSpellBytes, SpelledInBytes};
ghost use Rattle.coap_codec.specs.Laws.{EachIsRead, NotBoth, OneMessage, OneFault, MessageIsDecoded, FaultIsDecoded};
ghost use Rattle.coap_codec.specs.Laws.{OneSpelling, SpelledByItsBytes, SpelledByNoOthers, NoOtherIsSpelled};

/// Every datagram spells exactly one message, or has exactly one fault; `decoded` of the
/// specifications is that message or that fault.
pub fn one_reading()
    // All bytes spell a message or have a fault.
    ensures each { EachIsRead }
    // No bytes spell a message and have a fault.
    ensures not_both { NotBoth }
    // Bytes spell at most one message.
    ensures one_message { OneMessage }
    // Bytes have at most one first fault, at one place.
    ensures one_fault { OneFault }
    // What is read as the message of bytes is just what they spell.
    ensures message { MessageIsDecoded }
    // What is told as the fault of bytes is just their first fault.
    ensures fault { FaultIsDecoded }
{}

/// No message has two spellings.
pub fn one_spelling()
    // No message has two spellings.
    ensures { OneSpelling }
{}

/// A message that isn't Empty, and whose options ascend and are short, has a spelling: of at most
/// the header, the token, 5 bytes and the value for each option, one byte and the payload.
pub fn bounded_spelling()
    // A message that isn't Empty, and whose options ascend and are short, has a spelling of a bounded length.
    ensures { BoundedSpelling }
{}

/// The messages that have a spelling, and that `message_bytes` of the specifications is the one
/// that they have; it is of bytes where the parts of the message are.
pub fn spelling_law()
    // A message that can be spelled, and the bare Empty one, is spelled by its bytes.
    ensures spelled { SpelledByItsBytes }
    // No other bytes spell a message.
    ensures only { SpelledByNoOthers }
    // No other message is spelled by any bytes.
    ensures others { NoOtherIsSpelled }
    // A message of bytes is spelled in bytes.
    ensures in_bytes { SpelledInBytes }
    // What bytes spell is a message of bytes.
    ensures of_bytes { BytesSpellBytes }
    // The test of a spelling holds just where the list spells the message.
    ensures tested { IsTested }
{}
