//! A store that looks in a map.
ghost use Rattle.coap_resource.specs.Entries.{content_of, paths_of};

use crate::map_entries::{find, path_at, paths, put_in, take_out};
use crate::refusal::StoreRefusal;
use crate::representation::Representation;
use crate::store::Store;
use crate::tally::{MAX_CHANGES_PER_WINDOW, Tally};
use crate::version_base::VersionBase;
use bytes::Bytes;
use coap_types::{BodyLimit, Moment, Path, appended};
use std::alloc::{Allocator, Global};
use std::collections::BTreeMap;
use std::marker::Model;

/// A store that looks a path up in a map.
#[derive(Drop)]
pub struct MapStore<A: Allocator + Copy = Global> {
    alloc: A,
    map: BTreeMap<Path<A>, Representation<A>, A>,
    tally: Tally,
}

impl<A: Allocator + Copy> Model for MapStore<A> {
    ghost use Rattle.coap_resource.specs.Entries.{AreShort, Listed, mapped_entries};

    ghost Value = { Listed };

    ghost view = { λ s. record { entries = mapped_entries s.map.entries; tally = s.tally } };

    ghost invariant = { λ s. AreShort s.tally.limits.body (mapped_entries s.map.entries) };
}

impl<A: Allocator + Copy> Store<A> for MapStore<A> {
    ghost content = { λ s. content_of s };

    ghost listing = { λ s. paths_of s.entries };

    fn new_after(
        alloc: A,
        changes_per_window: u32,
        limit: BodyLimit,
        base: VersionBase,
    ) -> Option<Self> {
        if changes_per_window < 1 || changes_per_window > MAX_CHANGES_PER_WINDOW {
            return None;
        }
        let tally = Tally::new(changes_per_window, limit, base);
        Some(MapStore {
            alloc,
            map: BTreeMap::new(alloc),
            tally,
        })
    }

    fn limit(&self) -> BodyLimit {
        self.tally.limit()
    }

    fn get(&self, path: &Path<A>) -> Option<&Representation<A>> {
        find(&self.map, path)
    }

    fn version(&self) -> u64 {
        self.tally.version
    }

    fn paths(&self) -> usize {
        paths(&self.map)
    }

    fn path_at(&self, place: usize) -> Option<&Path<A>> {
        path_at(&self.map, place)
    }

    fn changes_left(&self, now: Moment) -> u32 {
        self.tally.changes_left(now)
    }

    fn put(
        &mut self,
        now: Moment,
        path: &Path<A>,
        format: Option<u16>,
        body: &[u8],
    ) -> Result<u64, StoreRefusal> {
        let there = find(&self.map, path).is_some();
        let paths = paths(&self.map);
        if let Some(why) = self.tally.put_refusal(now, there, paths, body.len()) {
            self.tally = self.tally.waited(now);
            return Err(why);
        }
        let tally = self.tally.counted(now);
        let version = tally.version;
        let body = Bytes::copy_from_slice(self.alloc, body)?;
        let held = Representation {
            version,
            format,
            body,
        };
        put_in(&mut self.map, path, held)?;
        self.tally = tally;
        Ok(version)
    }

    fn append(
        &mut self,
        now: Moment,
        path: &Path<A>,
        body: &[u8],
    ) -> Result<Option<u64>, StoreRefusal> {
        let Some(held) = find(&self.map, path) else {
            self.tally = self.tally.waited(now);
            return Ok(None);
        };
        if let Some(why) = self.tally.append_refusal(now, held.body.len(), body.len()) {
            self.tally = self.tally.waited(now);
            return Err(why);
        }
        let tally = self.tally.counted(now);
        let version = tally.version;
        let format = held.format;
        let body = appended(self.alloc, &held.body, body)?;
        let held = Representation {
            version,
            format,
            body,
        };
        put_in(&mut self.map, path, held)?;
        self.tally = tally;
        Ok(Some(version))
    }

    fn delete(&mut self, now: Moment, path: &Path<A>) -> Result<Option<u64>, StoreRefusal> {
        if find(&self.map, path).is_none() {
            self.tally = self.tally.waited(now);
            return Ok(None);
        }
        if let Some(why) = self.tally.refusal(now) {
            self.tally = self.tally.waited(now);
            return Err(why);
        }
        let tally = self.tally.counted(now);
        take_out(&mut self.map, path);
        self.tally = tally;
        Ok(Some(tally.version))
    }
}
