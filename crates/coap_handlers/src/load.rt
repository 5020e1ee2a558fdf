//! How full the tables of a server are.

/// How many requests a server defers at most (profile).
pub const MAX_DEFERRED: usize = 16;

const _: () = prove!(MAX_DEFERRED == 16);

/// How many places of a server's tables are taken, as far as its exchanges tell, and how many there are.
#[derive(Clone, Copy, Debug, PartialEq, Eq)]
pub struct Load {
    /// So many requests are deferred (RFC 7252, section 5.2.2).
    pub deferred: usize,
    /// So many can be deferred.
    pub most_deferred: usize,
    /// So many messages can be remembered (RFC 7252, section 4.5).
    pub most_remembered: usize,
}
