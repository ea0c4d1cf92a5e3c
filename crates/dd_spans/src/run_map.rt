//! A small number for each place.
ghost use Rattle.std.specs.Prelude.{◌≡◌, ◌≢◌, ℕ, ◌+◌, ◌*◌, ◌<◌, ◌≤◌, length, replicate, slice_index, slice_set, nat_le, nat_lt, ◌&&◌, if◌then◌else◌, IfOk, OnOk};
ghost use Rattle.std.specs.List.{AllWithin};
ghost use Rattle.dd_spans.specs.PlaceMap.{with_copied, with_run};

use std::alloc::{AllocError, Global};
use std::marker::Model;

/// A value for each place, from 0 on, and spare: how many runs more it has memory for. A run is places side by side that
/// have one value.
#[derive(Debug, Drop)]
pub struct RunMap {
    values: Vec<u32>,
    spare: u64,
}

impl Model for RunMap {
    ghost use Rattle.dd_spans.specs.PlaceMap.{PlaceMap};

    ghost Value = { PlaceMap };

    ghost view = { λ m. record { list = m.values.items; spare = m.spare } };
}

impl RunMap {
    /// A map of so many places, each with the value.
    ///
    /// # Errors
    /// Want of memory.
    pub fn new(alloc: Global, len: u64, value: u32) -> Result<RunMap, AllocError>
        ensures { IfOk result (λ map. map ≡ record { list = replicate len value; spare = 0 }) }
    {
        Ok(RunMap {
            values: vec![in alloc; value; len as usize]?,
            spare: 0,
        })
    }

    /// The same values, and the same spare, in memory of their own.
    ///
    /// # Errors
    /// Want of memory.
    pub fn duplicate(&self) -> Result<RunMap, AllocError>
        ensures { IfOk result (λ map. map ≡ self.now) }
    {
        Ok(RunMap {
            values: self.values.clone()?,
            spare: self.spare,
        })
    }

    /// How many places there are.
    pub fn len(&self) -> u64
        ensures { result ≡ length self.now.list }
    {
        self.values.len() as u64
    }

    /// The value of a place.
    pub fn get(&self, place: u64) -> u32
        requires { place < length self.now.list }
        ensures { result ≡ slice_index self.now.list place }
    {
        self.values[place as usize]
    }

    /// The first place above this one that has another value, or how many places there are.
    pub fn same_until(&self, place: u64) -> u64
        requires { place < length self.now.list }
        ensures above { place < result }
        ensures within { result ≤ length self.now.list }
        ensures same { AllWithin (λ value. value ≡ slice_index self.now.list place) self.now.list place result }
        ensures other { result < length self.now.list
            → slice_index self.now.list result ≢ slice_index self.now.list place }
    {
        let value = self.get(place);
        for (count, other) in self.values[place as usize..].iter().enumerate() {
            if *other != value {
                return place + count as u64;
            }
        }
        self.len()
    }

    /// The value of a place, and the first place above it that has another value, or `end`. It reads no place from `end` on, so
    /// whoever goes on with that place goes through the runs below `end`, and each place is read once.
    pub fn run_at(&self, place: u64, end: u64) -> (u32, u64)
        requires below { place < end }
        requires within { end ≤ length self.now.list }
        ensures value { result.0 ≡ slice_index self.now.list place }
        ensures above { place < result.1 }
        ensures within { result.1 ≤ end }
        ensures same { AllWithin (λ value. value ≡ result.0) self.now.list place result.1 }
        ensures other { result.1 < end → slice_index self.now.list result.1 ≢ result.0 }
    {
        let value = self.get(place);
        for (count, other) in self.values[place as usize..end as usize].iter().enumerate() {
            if *other != value {
                return (value, place + count as u64);
            }
        }
        (value, end)
    }

    /// Makes the spare at least so many runs.
    ///
    /// # Errors
    /// Want of memory. The places have the values that they had, and the spare is no smaller.
    pub fn reserve(&mut self, runs: u64) -> Result<(), AllocError>
        ensures ok { OnOk result (runs ≤ self.new.spare) }
        ensures list { self.new.list ≡ self.old.list }
        ensures kept { self.old.spare ≤ self.new.spare }
    {
        self.spare = self.spare.max(runs);
        Ok(())
    }

    /// Sets one place. It takes no memory, and leaves the spare.
    pub fn set(&mut self, place: u64, value: u32)
        requires { place < length self.old.list }
        ensures { self.new ≡ record self.old { list = slice_set self.old.list place value } }
    {
        let at = place as usize;
        self.values[at] = value;
    }

    /// Sets `count` places from `first` on. It takes no memory: it uses up to two of the spare runs.
    pub fn set_run(&mut self, first: u64, count: u64, value: u32)
        requires within { first + count ≤ length self.old.list }
        requires spare { 2 ≤ self.old.spare }
        ensures list { self.new.list ≡ with_run first count value self.old.list }
        ensures len { length self.new.list ≡ length self.old.list }
        ensures places { (place : ℕ) → slice_index self.new.list place
            ≡ (if nat_le first place && nat_lt place (first + count) then value else slice_index self.old.list place) }
        ensures spare { self.old.spare ≤ self.new.spare + 2 }
    {
        self.values[first as usize..(first + count) as usize].fill(value);
        self.spare -= 2;
    }

    /// Gives `count` places from `first` on the values that another map has there. It takes no memory: it uses up to two of the
    /// spare runs for each place.
    pub fn copy_run(&mut self, other: &RunMap, first: u64, count: u64)
        requires within { first + count ≤ length self.old.list }
        requires other { first + count ≤ length other.now.list }
        requires spare { 2 * count ≤ self.old.spare }
        ensures list { self.new.list ≡ with_copied first count other.now.list self.old.list }
        ensures len { length self.new.list ≡ length self.old.list }
        ensures places { (place : ℕ) → slice_index self.new.list place
            ≡ (if nat_le first place && nat_lt place (first + count) then slice_index other.now.list place else slice_index self.old.list place) }
        ensures spare { self.old.spare ≤ self.new.spare + 2 * count }
    {
        let theirs = &other.values[first as usize..(first + count) as usize];
        self.values[first as usize..(first + count) as usize].copy_from_slice(theirs);
        self.spare -= 2 * count;
    }
}
