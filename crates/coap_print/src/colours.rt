//! Colours of lines on a terminal (ECMA-48, section 8.3.117).
ghost use Rattle.std.specs.Prelude.{◌≡◌};
ghost use Rattle.coap_print.specs.Colours.{sign_before, sign_behind};

/// In which colour a line stands.
#[derive(Clone, Copy, Debug, PartialEq, Eq)]
pub enum Colour {
    /// In that of the terminal.
    Usual,
    /// In cyan.
    Cyan,
    /// In green.
    Green,
}

// From here on all is in cyan.
const CYAN: &str = "\x1b[36m";

// From here on all is in green.
const GREEN: &str = "\x1b[32m";

// From here on all is as the terminal has it.
const RESET: &str = "\x1b[0m";

impl Colour {
    /// What stands before a line in this colour.
    pub fn sign_before(self) -> &'static str
        // What stands before a line begins its colour; there is nothing where the line has none of its own.
        ensures { result.now ≡ sign_before self }
    {
        match self {
            Colour::Usual => "",
            Colour::Cyan => CYAN,
            Colour::Green => GREEN,
        }
    }

    /// What stands behind it.
    pub fn sign_behind(self) -> &'static str
        // What stands behind a line ends its colour, where it has one of its own.
        ensures { result.now ≡ sign_behind self }
    {
        match self {
            Colour::Usual => "",
            Colour::Cyan | Colour::Green => RESET,
        }
    }
}
