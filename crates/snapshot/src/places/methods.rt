// What can be done with the places.
ghost use Rattle.std.specs.Prelude.{◌≡◌, length, replicate, None, slice_index_or, slice_set};
ghost use Rattle.std.specs.Option.{option_map};
ghost use Rattle.snapshot.specs.Snapshots.{data_of, first_free, nearest as nearest_of, xmins};
ghost use Rattle.snapshot.specs.Operations.{take_answer, after_take, free_answer, after_free};

use super::{COUNT, Places};
use crate::horizons::nearer;
use crate::snapshots::Snapshot;
use refusal::Refusal;

impl Places {
    pub fn new() -> Places
        ensures { result ≡ replicate 16 None }
    {
        Places { at: [None; COUNT] }
    }

    // The snapshot at a place, if one stands there.
    pub fn get(&self, place: usize) -> Option<&Snapshot>
        ensures answer { option_map (λ s. data_of s.now) result ≡ slice_index_or self.now place None }
        ensures all { length self.now ≡ 16 }
    {
        self.at.get(place)?.as_ref()
    }

    // The lowest place without a snapshot.
    fn lowest_free(&self) -> Option<usize>
        ensures answer { result ≡ first_free self.now }
        ensures all { length self.now ≡ 16 }
    {
        // Not `position`: the check leaves open where it finds one in an array of these structs.
        for (i, place) in self.at.iter().enumerate() {
            if place.is_none() {
                return Some(i);
            }
        }
        None
    }

    // Puts a snapshot, or none, at a place, if there is such a place.
    fn put(&mut self, place: usize, snapshot: Option<Snapshot>)
        ensures { self.new ≡ slice_set self.old place (option_map data_of snapshot) }
    {
        // A test, and not `get_mut`: behind that the check leaves open what the places hold.
        if place < COUNT {
            self.at[place] = snapshot;
        }
    }

    // Puts a snapshot at the lowest free place, and answers the place.
    pub fn take_lowest(&mut self, snapshot: &Snapshot) -> Result<usize, Refusal>
        ensures answer { result ≡ take_answer self.old }
        ensures places { self.new ≡ after_take self.old (data_of snapshot.now) }
        ensures all { length self.old ≡ 16 }
    {
        let place = self.lowest_free().ok_or(Refusal::NoPlaceFree)?;
        self.put(place, Some(*snapshot));
        Ok(place)
    }

    // Takes the snapshot from a place.
    pub fn free(&mut self, place: usize) -> Result<(), Refusal>
        ensures answer { result ≡ free_answer self.old place }
        ensures places { self.new ≡ after_free self.old place }
        ensures all { length self.old ≡ 16 }
    {
        if self.get(place).is_none() {
            return Err(Refusal::PlaceNotTaken);
        }
        self.put(place, None);
        Ok(())
    }

    // The one of `first` and the xmins that lies nearest from `oldest` on.
    pub fn nearest_xmin(&self, oldest: u32, first: u32) -> u32
        ensures answer { result ≡ nearest_of oldest first (xmins self.now) }
        ensures all { length self.now ≡ 16 }
    {
        self.at.iter().fold(first, |best, place| match place {
            Some(snapshot) => nearer(oldest, snapshot.xmin(), best),
            None => best,
        })
    }
}
