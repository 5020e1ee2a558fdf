//! A list in pages: it grows at its end, and goes a page at a time from its front.
ghost use Rattle.std.specs.Prelude.{◌≡◌, ◌<◌, ◌≤◌, ◌+◌, ◌++◌, [], ◌∷◌, drop, length, slice_get, option_copied, OnOk};
ghost use Rattle.coap_layer.specs.declared.dedup.pages.TheConstants.{LONGEST as longest, PAGE as page};

use std::alloc::{AllocError, Allocator};
use std::collections::VecDeque;
use std::marker::Model;
use std::mem;

/// So many are on a page that is full.
pub(crate) const PAGE: usize = 128;

/// No list is longer.
pub(crate) const LONGEST: usize = 0x8000_0000;

/// A list on pages, of which each but the last is full. To grow by one, or to let go of a page, takes no longer
/// where it is longer.
#[derive(Drop)]
pub(crate) struct Pages<T: Drop, A: Allocator + Copy> {
    full: VecDeque<Vec<T, A>, A>,
    last: Vec<T, A>,
    // The page behind the last, empty.
    next: Vec<T, A>,
    len: usize,
    // There is room for so many more.
    spare: usize,
}

impl<T: Drop, A: Allocator + Copy> Model for Pages<T, A> {
    ghost use Rattle.std.specs.Prelude.{◌≡◌, ◌≤◌, ◌+◌, ◌++◌, [], length};
    ghost use Rattle.std.specs.Vec.{vec_len, vec_capacity};
    ghost use Rattle.std.specs.VecDeque.{deque_len, deque_capacity};
    ghost use Rattle.coap_layer.specs.Machine.Paged.{Paged, AreFull, IsRoom, first_of, items_on};
    ghost use Rattle.coap_layer.specs.declared.dedup.pages.TheConstants.{LONGEST as longest};

    ghost Value = { Paged T };

    ghost view = { λ p. record {
      items = items_on p.full.items ++ p.last.items;
      spare = p.spare;
      first = first_of p.full.items (length p.last.items);
    } };

    ghost invariant = { λ p. AreFull p.full.items
        × (p.len ≡ length (items_on p.full.items ++ p.last.items))
        × (p.len + p.spare ≤ longest)
        × (p.next.items ≡ [])
        × IsRoom p.spare (vec_len p.last) (vec_capacity p.last) (deque_len p.full) (deque_capacity p.full)
        (vec_capacity p.next) };
}

impl<T: Drop, A: Allocator + Copy> Pages<T, A> {
    /// An empty list. It takes no memory.
    pub(crate) fn new(alloc: A) -> Pages<T, A>
        ensures items { result.items ≡ [] }
        ensures spare { result.spare ≡ 0 }
    {
        Pages {
            full: VecDeque::new(alloc),
            last: Vec::new(alloc),
            next: Vec::new(alloc),
            len: 0,
            spare: 0,
        }
    }

    /// How many are on the list.
    pub(crate) fn len(&self) -> usize
        ensures len { result ≡ length self.now.items }
        ensures few { result + self.now.spare ≤ longest }
    {
        self.len
    }

    /// That at this place.
    pub(crate) fn get(&self, place: usize) -> Option<&T>
        ensures { option_copied result ≡ slice_get self.now.items place }
    {
        match self.full.get(place / PAGE) {
            Some(page) => page.get(place % PAGE),
            None => self.last.get(place - self.full.len() * PAGE),
        }
    }

    /// Makes room for two more.
    pub(crate) fn reserve(&mut self) -> Result<(), AllocError>
        ensures items { self.new.items ≡ self.old.items }
        ensures first { self.new.first ≡ self.old.first }
        ensures spare { self.old.spare ≤ self.new.spare }
        ensures ok { OnOk result (2 ≤ self.new.spare) }
    {
        if self.spare >= 2 {
            return Ok(());
        }
        if self.len > LONGEST - 2 {
            return Err(AllocError);
        }
        let on_last = self.last.len();
        if on_last + 2 <= PAGE {
            self.last.reserve(2)?;
        } else {
            self.full.reserve(1)?;
            self.last.reserve(PAGE - on_last)?;
            self.next.reserve(PAGE)?;
        }
        self.spare = 2;
        Ok(())
    }

    /// Puts one more at the end, for which there is room.
    pub(crate) fn push(&mut self, item: T)
        requires { 0 < self.old.spare }
        ensures items { self.new.items ≡ self.old.items ++ item ∷ [] }
        ensures spare { self.new.spare + 1 ≡ self.old.spare }
    {
        self.len += 1;
        self.spare -= 1;
        if self.last.len() < PAGE {
            self.last.push_reserved(item);
        } else {
            let next = mem::replace(&mut self.next, Vec::new(*self.full.allocator()));
            let page = mem::replace(&mut self.last, next);
            self.full.push_back_reserved(page);
            self.last.push_reserved(item);
        }
    }

    /// How many are on the first page.
    pub(crate) fn first(&self) -> usize
        ensures first { result ≡ self.now.first }
        ensures within { result ≤ length self.now.items }
        ensures few { result ≤ page }
    {
        if self.full.len() > 0 {
            PAGE
        } else {
            self.last.len()
        }
    }

    /// Lets go of the first page.
    pub(crate) fn let_go(&mut self)
        ensures items { self.new.items ≡ drop self.old.first self.old.items }
        ensures spare { self.new.spare ≡ self.old.spare }
    {
        match self.full.pop_front() {
            Some(_page) => self.len -= PAGE,
            None => {
                self.last.clear();
                self.len = 0;
            }
        }
    }
}
