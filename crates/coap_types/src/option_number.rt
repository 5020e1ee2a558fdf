//! Option numbers: RFC 7252, section 12.2 (table 7), RFC 7641, section 2, and RFC 7959, sections
//! 2.1 and 4.

/// Which representations a request wants to be there (RFC 7252, section 5.10.8.1).
pub const IF_MATCH: u16 = 1;
/// The host of a request (RFC 7252, section 5.10.1).
pub const URI_HOST: u16 = 3;
/// An entity-tag: which representation a response carries, or a request knows (RFC 7252, section
/// 5.10.6).
pub const ETAG: u16 = 4;
/// Whether a request wants nothing to be there (RFC 7252, section 5.10.8.2).
pub const IF_NONE_MATCH: u16 = 5;
/// Registers, cancels or numbers an observation (RFC 7641, section 2).
pub const OBSERVE: u16 = 6;
/// The port of a request (RFC 7252, section 5.10.1).
pub const URI_PORT: u16 = 7;
/// One segment of the path of a request (RFC 7252, section 5.10.1).
pub const URI_PATH: u16 = 11;
/// The format of the payload (RFC 7252, section 5.10.3).
pub const CONTENT_FORMAT: u16 = 12;
/// The format that a request wants (RFC 7252, section 5.10.4).
pub const ACCEPT: u16 = 17;
/// Which block of the body of a response (RFC 7959, section 2.1).
pub const BLOCK2: u16 = 23;
/// Which block of the body of a request (RFC 7959, section 2.1).
pub const BLOCK1: u16 = 27;
/// The size of the body of a response, in bytes (RFC 7959, section 4).
pub const SIZE2: u16 = 28;
/// The URI that a proxy is to ask for (RFC 7252, section 5.10.2).
pub const PROXY_URI: u16 = 35;
/// The scheme of the URI that a proxy is to ask for (RFC 7252, section 5.10.2).
pub const PROXY_SCHEME: u16 = 39;
/// The size of the body of a request, in bytes (RFC 7252, section 5.10.9, and RFC 7959, section 4).
pub const SIZE1: u16 = 60;

// The numbers, as the registry has them.
const _: () = prove!(IF_MATCH == 1 && URI_HOST == 3 && ETAG == 4);

const _: () = prove!(IF_NONE_MATCH == 5 && OBSERVE == 6 && URI_PORT == 7);

const _: () = prove!(URI_PATH == 11 && CONTENT_FORMAT == 12 && ACCEPT == 17);

const _: () = prove!(BLOCK2 == 23 && BLOCK1 == 27 && SIZE2 == 28);

const _: () = prove!(PROXY_URI == 35 && PROXY_SCHEME == 39 && SIZE1 == 60);
