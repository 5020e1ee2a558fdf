//! What is recognised of an option: its lengths, its directions and how often it occurs.

/// How often an option is recognised in one message (RFC 7252, sections 5.4.1 and 5.4.5).
#[derive(Clone, Copy, Debug, PartialEq, Eq)]
pub enum Occurrence {
    /// Not at all.
    Never,
    /// Once; a further occurrence is supernumerary.
    Once,
    /// Any number of times: the option is repeatable.
    Repeatable,
}

/// What is recognised of an option.
#[derive(Clone, Copy, Debug, PartialEq, Eq)]
pub struct Rule {
    /// The fewest bytes of its value.
    pub min_len: usize,
    /// The most bytes of its value.
    pub max_len: usize,
    /// How often it is recognised in a request.
    pub in_request: Occurrence,
    /// How often it is recognised in a response.
    pub in_response: Occurrence,
}
