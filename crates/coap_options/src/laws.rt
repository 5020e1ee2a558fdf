//! What holds of options that are written one behind the other.
ghost use Rattle.coap_options.specs.Written.{OneMore};

/// Options that are written one behind the other are those of a message.
pub fn options_law()
    // What is one option behind the last of some options makes them and that option, in order (RFC 7252, section 3.1).
    ensures { OneMore }
{}
