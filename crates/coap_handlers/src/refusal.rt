//! Why an answer is not sent.

/// Why an answer is not sent, or a request not deferred.
#[derive(Clone, Copy, Debug, PartialEq, Eq)]
pub enum AnswerRefusal {
    /// 1: the request was not asked by the last feed, or is not the one that may be answered.
    NotAsked,
    /// 2: it was answered, or deferred, already.
    Given,
    /// 3: 16 requests are deferred.
    DeferralsFull,
    /// 4: the last tick did not call the request ready for its answer.
    NotReady,
    /// 5: a Non-confirmable request is answered at once, and not deferred.
    NotConfirmable,
    /// 6: a code that is not of class 2 to 5, or a message of over 1,152 bytes.
    BadResponse,
}

/// Why a notification is not sent.
#[derive(Clone, Copy, Debug, PartialEq, Eq)]
pub enum NotifyRefusal {
    /// A code that is not of class 2 to 5, or a message of over 1,152 bytes.
    BadResponse,
    /// A Confirmable message to there is outstanding, or no Message ID is free (RFC 7252, sections 4.4 and 4.7).
    NotReady,
    /// The allocator refused.
    Memory,
}
