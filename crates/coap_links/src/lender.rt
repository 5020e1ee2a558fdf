//! What lends a table that several share.
ghost use Rattle.std.specs.Prelude.{IfNone};

use std::cell::{Ref, RefCell, RefMut};

/// Lends what is in a cell, to one that changes it or to several that read it. No clause says what a cell holds, or
/// whether it is lent; that nothing is had of one only where it is, a trait can.
pub trait Lender {
    /// What is asked for is lent to another.
    ghost is_lent: { Type 0 };

    /// Lends what is in the cell to one that changes it; None where it is lent.
    fn lend<'b, T>(&self, cell: &'b RefCell<T>) -> Option<RefMut<'b, T>>
        // What is in a cell is lent to one that changes it, unless it is lent to another.
        ensures { IfNone result is_lent };

    /// .. to one that reads it.
    fn show<'b, T>(&self, cell: &'b RefCell<T>) -> Option<Ref<'b, T>>
        // What is in a cell is lent to one that reads it, unless it is lent to another.
        ensures { IfNone result is_lent };
}

/// Lends as the cell itself does.
#[derive(Clone, Copy, Debug)]
pub struct CellLender;

impl Lender for CellLender {
    ghost use Rattle.std.specs.Prelude.{⊤};

    ghost is_lent = { ⊤ };

    fn lend<'b, T>(&self, cell: &'b RefCell<T>) -> Option<RefMut<'b, T>> {
        cell.try_borrow_mut().ok()
    }

    fn show<'b, T>(&self, cell: &'b RefCell<T>) -> Option<Ref<'b, T>> {
        cell.try_borrow().ok()
    }
}
