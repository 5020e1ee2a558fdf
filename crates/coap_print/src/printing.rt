//! How a run or a capture is printed: a line each, or as a chart.
ghost use Rattle.std.specs.Prelude.{◌≡◌};
ghost use Rattle.coap_print.specs.Colours.{printing_of};

/// What a chart is drawn with.
#[derive(Clone, Copy, Debug, PartialEq, Eq)]
pub enum Ink {
    /// Without colours.
    Plain,
    /// In colours, for a terminal.
    Coloured,
}

/// How a run or a capture is printed.
#[derive(Clone, Copy, Debug, PartialEq, Eq)]
pub enum Printing {
    /// A line each.
    Lines,
    /// As a chart.
    Chart(Ink),
}

impl Printing {
    /// As a chart in this ink where one is asked for.
    pub fn of(is_chart: bool, ink: Ink) -> Printing
        // A chart is drawn exactly where one is asked for, in the ink that there is.
        ensures { result ≡ printing_of is_chart ink }
    {
        if is_chart {
            Printing::Chart(ink)
        } else {
            Printing::Lines
        }
    }
}
