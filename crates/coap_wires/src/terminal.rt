//! What the program's output is, a terminal or not, and how it is shown there what is asked.
ghost use Rattle.std.specs.Prelude.{◌≡◌, ◌≢◌, ◌↔◌, true};
ghost use Rattle.coap_wires.specs.Colours.{ink_on};
ghost use Rattle.coap_wires.specs.declared.terminal.Terminal.TheVariants as terminals;

use coap_print::Ink;

/// What standard output or standard error is.
#[derive(Clone, Copy, Debug, PartialEq, Eq)]
pub enum Terminal {
    /// No terminal, as a file.
    Absent,
    /// A terminal on which nothing is to be in colour.
    Plain,
    /// A terminal on which colours may be.
    Coloured,
}

/// What both are.
#[derive(Clone, Copy, Debug, PartialEq, Eq)]
pub struct Terminals {
    /// Standard output.
    pub out: Terminal,
    /// Standard error.
    pub err: Terminal,
}

/// Neither is a terminal.
pub const NO_TERMINALS: Terminals = Terminals {
    out: Terminal::Absent,
    err: Terminal::Absent,
};

/// How it is shown what is asked.
#[derive(Clone, Copy)]
pub struct Showing<'p> {
    /// The file of a capture.
    pub pcap: Option<&'p str>,
    /// Whether standard error is a terminal.
    pub is_terminal: bool,
    /// Whether it is one in colour.
    pub is_coloured: bool,
}

impl Terminal {
    /// What a chart is drawn with there.
    pub fn ink(self) -> Ink
        // A chart is drawn in colours exactly on a terminal that is to have them.
        ensures { result ≡ ink_on self }
    {
        match self {
            Terminal::Absent | Terminal::Plain => Ink::Plain,
            Terminal::Coloured => Ink::Coloured,
        }
    }

    /// How it is shown there what is asked, and in this file what passes.
    pub fn showing<'p>(self, pcap: Option<&'p str>) -> Showing<'p>
        // What passes is captured in the file that is named, if any.
        ensures pcap { result.pcap ≡ pcap.entry }
        // Standard error is taken for a terminal exactly where it is one.
        ensures terminal { (result.is_terminal ≡ true) ↔ (self ≢ terminals.Absent) }
        // What is told on standard error is in colour exactly on a terminal that is to have colours.
        ensures coloured { (result.is_coloured ≡ true) ↔ (self ≡ terminals.Coloured) }
    {
        Showing {
            pcap,
            is_terminal: self != Terminal::Absent,
            is_coloured: self == Terminal::Coloured,
        }
    }
}
