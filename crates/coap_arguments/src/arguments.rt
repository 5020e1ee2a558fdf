//! What a table of subcommands is made of.

/// How an argument is given.
pub(crate) enum Form {
    /// A word that has to be there.
    Required,
    /// A word that may be left out.
    Optional,
    /// `--NAME VALUE`, which may be left out.
    Single {
        /// How help names the value.
        value_name: &'static str,
    },
    /// `--NAME VALUE`, any number of times.
    Repeated {
        /// How help names the value.
        value_name: &'static str,
    },
    /// `--NAME`, which may be left out.
    Flag,
    /// `--NAME`, or a hyphen and this letter, which may be left out.
    ShortFlag {
        /// The letter.
        letter: char,
    },
}

/// An argument of a subcommand.
pub(crate) struct Argument {
    pub(crate) form: Form,
    /// Its name, which for an option is the word behind the two hyphens.
    pub(crate) name: &'static str,
    /// What help says of it.
    pub(crate) help: &'static str,
}

/// A subcommand.
pub(crate) struct Subcommand {
    pub(crate) name: &'static str,
    /// What help says of it.
    pub(crate) about: &'static str,
    /// What help says at its end: a run of it.
    pub(crate) example: &'static str,
    /// Its arguments. Words are given in this order.
    pub(crate) arguments: &'static [Argument],
}
