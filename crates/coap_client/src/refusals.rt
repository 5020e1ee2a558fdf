//! Why a client does not take a call, an observation or a cancel.
ghost use Rattle.std.specs.Prelude.{◌≡◌};
ghost use Rattle.coap_client.specs.RefusalNumbers.{call_refusal_number, cancel_refusal_number};

/// Why a call or an observation is not taken. Where several hold, the lowest number is answered, and
/// `Memory` only where none other holds.
#[derive(Clone, Copy, Debug, PartialEq, Eq)]
pub enum CallRefusal {
    /// 1: `MAX_WAITING_CALLS` operations wait.
    QueueFull,
    /// 2: the body is longer than the client's limit.
    BodyTooLarge,
    /// 3: the options of the longest message take over `MAX_OPTIONS_LEN` bytes.
    BadPath,
    /// 4: the allocator refused.
    Memory,
    /// 5: `MAX_OBSERVATIONS` observations wait, run or are live.
    WatchesFull,
    /// 6: each number was given once.
    CallsSpent,
}

impl CallRefusal {
    /// The number of the refusal, 1 to 6, in the order of the variants.
    pub fn number(self) -> u8
        // The number of a call's refusal is its place among the six.
        ensures { result ≡ call_refusal_number self }
    {
        match self {
            CallRefusal::QueueFull => 1,
            CallRefusal::BodyTooLarge => 2,
            CallRefusal::BadPath => 3,
            CallRefusal::Memory => 4,
            CallRefusal::WatchesFull => 5,
            CallRefusal::CallsSpent => 6,
        }
    }
}

/// Why an observation is not cancelled. Where both hold, the lower number is answered.
#[derive(Clone, Copy, Debug, PartialEq, Eq)]
pub enum CancelRefusal {
    /// 1: no live observation has the number, or it is being cancelled.
    Unknown,
    /// 2: `MAX_WAITING_CALLS` operations wait.
    QueueFull,
}

impl CancelRefusal {
    /// The number of the refusal, 1 or 2, in the order of the variants.
    pub fn number(self) -> u8
        // The number of a cancel's refusal is its place among the two.
        ensures { result ≡ cancel_refusal_number self }
    {
        match self {
            CancelRefusal::Unknown => 1,
            CancelRefusal::QueueFull => 2,
        }
    }
}
