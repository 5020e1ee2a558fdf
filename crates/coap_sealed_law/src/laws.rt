//! The law of what is sealed and opened.
ghost use Rattle.std.specs.Prelude.{List};
ghost use Rattle.coap_sealed_law.specs.Sealing.{Event, Follows, NonceOnce, HeadOnce, two_lives};

/// What follows from the rules by which an end seals and opens under one context, over all lives of that end.
pub fn sealed_law()
    // By these rules no nonce is used for two plaintexts, in all lives of the end (RFC 8613, sections 5.2 and 7.2.1).
    ensures nonces { (t : List Event) → Follows t → NonceOnce t }
    // By these rules a sealed request is handed to the end under one type, Message ID and token alone (RFC 8613,
    // section 7.4).
    ensures heads { (t : List Event) → Follows t → HeadOnce t }
    // The rules let two lives pass, with a request, its copy, the answer to both, and a notification.
    ensures happens { Follows two_lives }
{}
