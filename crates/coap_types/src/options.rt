//! An option of a message.

/// An option of a message: its number, and its value lent from where it lies (RFC 7252,
/// section 3.1).
#[derive(Clone, Copy, Debug)]
pub struct Opt<'a> {
    /// Which option it is (`option_number`).
    pub number: u16,
    /// Its value, any bytes.
    pub value: &'a [u8],
}

impl<'a> Default for Opt<'a> {
    fn default() -> Opt<'a> {
        Opt {
            number: 0,
            value: &[],
        }
    }
}
