//! The options of a message in order, without memory.
ghost use Rattle.std.specs.Prelude.{◌≡◌, ◌<◌, ◌≤◌, ◌+◌, ◌++◌, ◌∷◌, [], length, option_copied};
ghost use Rattle.coap_types.specs.CoapOption.{option, options_of};
ghost use Rattle.coap_types.specs.OptionValues.{option_with};

use crate::Opt;
use arrayvec::ArrayVec;
use std::marker::Model;

/// The options of a message, at most `MOST`, in the order in which they are added. It takes no memory.
#[derive(Drop)]
pub struct OptionList<'a, const MOST: usize> {
    options: ArrayVec<Opt<'a>, MOST>,
}

impl<'a, const MOST: usize> Model for OptionList<'a, MOST> {
    ghost use Rattle.std.specs.Prelude.{List, ◌≤◌, length};
    ghost use Rattle.coap_types.specs.CoapOption.{CoapOption, options_of};

    ghost Value = { List CoapOption };

    ghost view = { λ l. options_of l.options.items };

    ghost invariant = { λ l. length l.options.items ≤ MOST };
}

impl<'a, const MOST: usize> OptionList<'a, MOST> {
    /// No option.
    pub fn new() -> Self
        // A new list of options is empty.
        ensures { result ≡ [] }
    {
        OptionList {
            options: ArrayVec::new(),
        }
    }

    /// Adds an option at the end.
    pub fn push(&mut self, number: u16, value: &'a [u8])
        requires room { length self.old < MOST }
        // The option is the last of the list, after those that were there.
        ensures list { self.new ≡ self.old ++ option number value.now ∷ [] }
        // The list has one option more.
        ensures len { length self.new ≡ length self.old + 1 }
    {
        self.options.push(Opt { number, value });
    }

    /// Adds an option at the end, where it has a value.
    pub fn push_some(&mut self, number: u16, value: Option<&'a [u8]>)
        requires room { length self.old < MOST }
        // The option is the last of the list where it has a value, and else the list is as it was.
        ensures list { self.new ≡ self.old ++ option_with number (option_copied value.entry) }
        // The list has one option more at most.
        ensures len { length self.new ≤ length self.old + 1 }
    {
        if let Some(value) = value {
            self.push(number, value);
        }
    }

    /// The options, in order.
    pub fn as_slice(&self) -> &[Opt<'a>]
        // The options that are lent are those of the list.
        ensures { options_of result.now ≡ self.now }
    {
        self.options.as_slice()
    }
}
