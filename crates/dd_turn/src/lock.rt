ghost use Rattle.std.specs.Prelude.{◌≡◌};

use crate::baton::{Baton, View};
use crate::found::Found;
use crate::rule::{End, Give, Ring, Take, TurnRule, Twins};
use atomic_table::{Refused, Table};
use std::alloc::{AllocFailed, Global};
use std::sync::Wait;

// The word of the turn. It is 0 where the turn is free, 1 where a seat holds it, and 2 where it was ended.
const TURN: usize = 0;

// The word of the bell, which counts rings.
const BELL: usize = 1;

/// What a thread steps with. It has no bytes, and goes to another thread as any value.
pub type Seat<K, T> = atomic_table::Seat<Option<T>, View<K>>;

/// The value, the turn that goes with it, and the bell.
pub struct Lock<K, T: Baton<K>> {
    table: Table<Option<T>, View<K>, K, TurnRule, Global>,
    ghost two_words: { table.shared.table_id.words ≡ 2 },
    ghost one_slot: { table.shared.table_id.slots ≡ 1 },
}

impl<K, T: Baton<K>> Lock<K, T> {
    ghost use Rattle.std.specs.Prelude.{IfOk, IfErr};
    ghost use Rattle.dd_turn.specs.Found.{Finds};
    ghost use Rattle.dd_turn.specs.Locks.{IsSeatOf};
    ghost use Rattle.dd_turn.specs.Seats.{IsFree, HasTurn, HasSeenEnd};

    /// A lock whose turn is free, and its first seat.
    ///
    /// # Errors
    /// There was no memory. The value comes back.
    pub fn new(alloc: Global, value: T, about: &K) -> Result<(Lock<K, T>, Seat<K, T>), T>
        requires fits { T.fits about.now value }
        ensures own { IfOk result (λ l. IsSeatOf l.0 l.1) }
        ensures free { IfOk result (λ l. IsFree about.now l.1) }
        ensures err { IfErr result (λ t. t ≡ value) }
    {
        let mut slots = Vec::new(alloc);
        if let Err(AllocFailed { value }) = slots.push(Some(value)) {
            let Some(value) = value else { unreachable!() };
            slots.destroy_empty();
            return Err(value);
        }
        match Table::new(alloc, &[0, 0], slots, about) {
            Ok((table, seat)) => Ok((Lock { table }, seat)),
            Err(Refused { mut slots }) => {
                let Some(Some(value)) = slots.pop() else {
                    unreachable!()
                };
                slots.destroy_empty();
                Err(value)
            }
        }
    }

    /// Takes the turn if it is free, and the value with it.
    pub fn take(&self, about: &K, seat: &mut Seat<K, T>) -> Found<T>
        requires own { IsSeatOf self.now seat.old }
        requires free { IsFree about.now seat.old }
        ensures own { IsSeatOf self.now seat.new }
        ensures found { Finds T.fits about.now seat.new result }
    {
        let table = &self.table.shared;
        match table.compare_exchange::<Take>(seat, TURN, 0, 1) {
            0 => match table.exchange(seat, 0, None) {
                Some(value) => Found::Turn(value),
                None => unreachable!(),
            },
            2 => Found::Ended,
            _ => Found::Busy,
        }
    }

    /// Puts the value back and gives the turn, and wakes a thread that waits for it.
    pub fn give(&self, about: &K, seat: &mut Seat<K, T>, value: T)
        requires own { IsSeatOf self.now seat.old }
        requires turn { HasTurn about.now seat.old }
        requires fits { T.fits about.now value }
        ensures own { IsSeatOf self.now seat.new }
        ensures free { IsFree about.now seat.new }
    {
        let table = &self.table.shared;
        // The value has to be back before another seat can take the turn.
        let old = table.exchange(seat, 0, Some(value));
        let None = old else { unreachable!() };
        table.swap::<Give>(seat, TURN, 0);
        table.wake_one(TURN);
    }

    /// Puts the value back for good, and wakes all who wait for the turn.
    pub fn end(&self, about: &K, seat: &mut Seat<K, T>, value: T)
        requires own { IsSeatOf self.now seat.old }
        requires turn { HasTurn about.now seat.old }
        requires fits { T.fits about.now value }
        requires over { T.over about.now value }
        ensures own { IsSeatOf self.now seat.new }
        ensures seen { HasSeenEnd about.now seat.new }
    {
        let table = &self.table.shared;
        let old = table.exchange(seat, 0, Some(value));
        let None = old else { unreachable!() };
        table.swap::<End>(seat, TURN, 2);
        // Nobody gives the turn any more, so each thread that waits for it has to look.
        table.wake_all(TURN);
    }

    /// Changes the bell, and wakes all who wait for that.
    pub fn ring(&self, seat: &mut Seat<K, T>)
        requires own { IsSeatOf self.now seat.old }
        ensures own { IsSeatOf self.now seat.new }
        ensures stays { seat.new.me ≡ seat.old.me }
    {
        let table = &self.table.shared;
        table.fetch_add::<Ring>(seat, BELL, 1);
        table.wake_all(BELL);
    }

    /// The bell as it is now, to be given to `wait`.
    pub fn bell(&self) -> u64 {
        self.table.shared.peek(BELL)
    }

    /// Waits while the bell is as it was. It may also return for no reason.
    pub fn wait<R: Wait>(&self, rt: &R, bell: u64) {
        // A thread sleeps on the low half of a word.
        let low_half = (bell & 0xffff_ffff) as u32;
        self.table.shared.park(rt, BELL, low_half);
    }

    /// Waits while another seat holds the turn. It may also return for no reason.
    pub fn wait_turn<R: Wait>(&self, rt: &R) {
        self.table.shared.park(rt, TURN, 1);
    }

    /// A seat for another thread.
    pub fn seat(&self, about: &K, seat: &mut Seat<K, T>) -> Seat<K, T>
        requires own { IsSeatOf self.now seat.old }
        requires free { IsFree about.now seat.old }
        ensures own { IsSeatOf self.now seat.new × IsSeatOf self.now result }
        ensures free { IsFree about.now seat.new × IsFree about.now result }
    {
        self.table.shared.split_seat::<Twins>(seat)
    }

    /// The value, by a seat that has seen the end.
    pub fn close(self, about: &K, seat: Seat<K, T>) -> T
        requires own { IsSeatOf self seat }
        requires seen { HasSeenEnd about.now seat }
        ensures fits { T.fits about.now result }
        ensures over { T.over about.now result }
    {
        let Lock { table } = self;
        let mut closed = table.close_with(seat);
        let slot = closed.take(0);
        closed.free();
        match slot {
            Some(value) => value,
            None => unreachable!(),
        }
    }
}
