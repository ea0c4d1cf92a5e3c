//! The core.
ghost use Rattle.std.specs.Prelude.{◌≡◌, ◌↔◌, ◌≤◌, ℕ, true, false, is_some, length, option_map, IfOk, IfSome, IsNone, IsTrue, OnErr, OnOk};
ghost use Rattle.dd_blocks.specs.declared.plan.Plan.{Plan};
ghost use Rattle.dd_blocks.specs.WellFormed.{IsWellFormed};
ghost use Rattle.dd_copies.specs.CopyTables.{copies_of};
ghost use Rattle.dd_core.specs.Cores.{IsCoreOf, core_state};
ghost use Rattle.dd_core.specs.Due.{AreDue};
ghost use Rattle.dd_core.specs.Finals.{is_final};
ghost use Rattle.dd_core.specs.Stale.{is_stale};
ghost use Rattle.dd_legal.specs.Starts.{MayStart};
ghost use Rattle.dd_machine.specs.declared.event.Event.{Event as OneEvent};
ghost use Rattle.dd_machine.specs.declared.task_state.TaskState.TheVariants.{Held};
ghost use Rattle.dd_machine.specs.Bytes.{load, resident, victim};
ghost use Rattle.dd_machine.specs.Effects.{after};
ghost use Rattle.dd_machine.specs.GoesOn.{LeadsHeldOn};
ghost use Rattle.dd_machine.specs.Legal.{Legal, May};
ghost use Rattle.dd_machine.specs.Needed.{needed};
ghost use Rattle.dd_machine.specs.Owed.{left, next_line};
ghost use Rattle.dd_machine.specs.Runs.{start};
ghost use Rattle.dd_machine.specs.Tests.{is_any, is_in_state, versions_of};
ghost use Rattle.dd_machine.specs.Words.{IsOneOf, blocks, spaces, tasks};
ghost use Rattle.dd_next.specs.Candidates.{candidates};
ghost use Rattle.dd_next.specs.Claims.{is_claim};
ghost use Rattle.dd_next.specs.First.{IsFirstLegal};

use crate::changes::{advance, end};
use crate::due::come_next;
use dd_blocks::Plan;
use dd_legal::{legal, may_start};
use dd_machine::{CopyState, Entry, Event, TaskState};
use dd_next::next_for;
use dd_row_steps::start;
use dd_spans::{RunMap, Runs};
use dd_tables::Tables;
use std::alloc::{AllocError, Global};
use std::marker::Model;

/// The state of the event machine over a Plan. Contracts see its tables, and through `core_state` the state that they stand
/// for. Spaces, blocks, tasks and regions go by their numbers from 1, sizes are in bytes.
#[derive(Debug, Drop)]
pub struct Core {
    tables: Tables,
}

impl Model for Core {
    ghost use Rattle.dd_tables.specs.declared.tables.Tables.{Tables};

    ghost Value = { Tables };

    ghost view = { λ c. c.tables };
}

impl Core {
    /// The core before the first entry: no copies, no region, each block at its first home.
    ///
    /// # Errors
    /// Want of memory.
    pub fn new(alloc: Global, plan: &Plan) -> Result<Core, AllocError>
        requires { IsWellFormed plan.now }
        ensures core { IfOk result (IsCoreOf plan.now) }
        ensures start { IfOk result (λ core. core_state plan.now core ≡ start plan.now) }
    {
        Ok(Core {
            tables: start(alloc, plan)?,
        })
    }

    /// Whether an entry is legal. It takes no memory.
    pub fn legal(&self, plan: &Plan, entry: Entry) -> bool
        requires well { IsWellFormed plan.now }
        requires core { IsCoreOf plan.now self.now }
        ensures { IsTrue result ↔ Legal plan.now (core_state plan.now self.now) entry }
    {
        legal(&self.tables, plan, entry)
    }

    /// Makes a legal entry that isn't one of those of `finish`.
    ///
    /// # Errors
    /// Want of memory. The state is as it was.
    pub fn step(&mut self, plan: &Plan, entry: Entry) -> Result<(), AllocError>
        requires well { IsWellFormed plan.now }
        requires core { IsCoreOf plan.now self.old }
        requires legal { Legal plan.now (core_state plan.now self.old) entry }
        requires kind { is_final entry.event ≡ false }
        ensures value { OnOk result (core_state plan.now self.new
            ≡ after plan.now (core_state plan.now self.old) entry.event) }
        ensures core { IsCoreOf plan.now self.new }
        ensures kept { OnErr result (core_state plan.now self.new ≡ core_state plan.now self.old) }
    {
        advance(plan, &mut self.tables, entry.event)
    }

    /// Makes a legal Finish, Rest, Free, Close, Pick or Gone. It takes no memory.
    pub fn finish(&mut self, plan: &Plan, entry: Entry)
        requires well { IsWellFormed plan.now }
        requires core { IsCoreOf plan.now self.old }
        requires legal { Legal plan.now (core_state plan.now self.old) entry }
        requires kind { is_final entry.event ≡ true }
        ensures value { core_state plan.now self.new
            ≡ after plan.now (core_state plan.now self.old) entry.event }
        ensures core { IsCoreOf plan.now self.new }
    {
        end(plan, &mut self.tables, entry.event);
    }

    /// The places in a block, from 0, of the elements that a task, or for 0 the write-back, needs from the space `source`.
    ///
    /// # Errors
    /// Want of memory.
    pub fn needed(
        &self,
        plan: &Plan,
        task: u32,
        block: u32,
        source: u32,
    ) -> Result<Runs, AllocError>
        requires well { IsWellFormed plan.now }
        requires core { IsCoreOf plan.now self.now }
        requires task { task ≤ tasks plan.now }
        requires block { IsOneOf (blocks plan.now) block }
        ensures { IfOk result (λ runs. runs.list ≡ needed plan.now (core_state plan.now self.now) task block source) }
    {
        self.tables.needed(plan, task, block, source)
    }

    /// How many elements that are. It takes no memory.
    pub fn needed_len(&self, plan: &Plan, task: u32, block: u32, source: u32) -> u64
        requires well { IsWellFormed plan.now }
        requires core { IsCoreOf plan.now self.now }
        requires task { task ≤ tasks plan.now }
        requires block { IsOneOf (blocks plan.now) block }
        ensures { result ≡ length (needed plan.now (core_state plan.now self.now) task block source) }
    {
        self.tables.needed_len(plan, task, block, source)
    }

    /// Whether the home copy of a block lacks the current version of an element. A block without a home copy lacks nothing. It
    /// takes no memory.
    pub fn is_stale(&self, plan: &Plan, block: u32) -> bool
        requires well { IsWellFormed plan.now }
        requires core { IsCoreOf plan.now self.now }
        requires block { IsOneOf (blocks plan.now) block }
        ensures { result ≡ is_stale plan.now (core_state plan.now self.now) block }
    {
        let home = self.tables.home_of(block);
        self.tables.copies.is_any(home, block) && !self.tables.is_current(plan, home, block)
    }

    /// What is in use of a space or wanted.
    pub fn load(&self, plan: &Plan, space: u32) -> u64
        requires well { IsWellFormed plan.now }
        requires core { IsCoreOf plan.now self.now }
        ensures { result ≡ load plan.now (core_state plan.now self.now) space }
    {
        self.tables.load(plan, space)
    }

    /// What is in use of a space.
    pub fn resident(&self, plan: &Plan, space: u32) -> u64
        requires well { IsWellFormed plan.now }
        requires core { IsCoreOf plan.now self.now }
        ensures { result ≡ resident plan.now (core_state plan.now self.now) space }
    {
        self.tables.resident(plan, space)
    }

    /// The event that leads a Held task on: the first legal one of its candidates, a Pick, Make, Call, Copy from a copy that is
    /// Here, or Lend, each by the least block and then the least source. None comes exactly where none of these is legal. It
    /// takes no memory.
    pub fn next_for(&self, plan: &Plan, task: u32) -> Option<Event>
        requires well { IsWellFormed plan.now }
        requires core { IsCoreOf plan.now self.now }
        requires held { (core_state plan.now self.now).tasks task ≡ Held }
        ensures first { IsFirstLegal plan.now (core_state plan.now self.now)
            (candidates plan.now (core_state plan.now self.now) task) result }
        ensures leads { IfSome result (λ event. LeadsHeldOn plan.now (core_state plan.now self.now) task event
            × May plan.now (core_state plan.now self.now) event) }
        ensures none { IsNone result → (event : OneEvent) → LeadsHeldOn plan.now (core_state plan.now self.now) task event
            → May plan.now (core_state plan.now self.now) event → is_claim event ≡ true }
    {
        next_for(&self.tables, plan, task)
    }

    /// Whether a task may be claimed, the worker aside. It takes no memory.
    pub fn claimable(&self, plan: &Plan, task: u32) -> bool
        requires well { IsWellFormed plan.now }
        requires core { IsCoreOf plan.now self.now }
        ensures { IsTrue result ↔ MayStart plan.now (core_state plan.now self.now) task }
    {
        may_start(&self.tables, plan, task)
    }

    /// The line that the next entry has. None comes exactly where all entries of all rows were made. It takes no memory.
    pub fn line(&self, plan: &Plan) -> Option<u32>
        requires { IsCoreOf plan.now self.now }
        ensures { result ≡ next_line (left plan.now (core_state plan.now self.now).progress) }
    {
        self.tables.line(plan)
    }

    /// Whether the statements ask next for these events, all of one line. It takes no memory.
    pub fn are_due(&self, plan: &Plan, events: &[Event]) -> bool
        requires well { IsWellFormed plan.now }
        requires core { IsCoreOf plan.now self.now }
        ensures { IsTrue result ↔ AreDue plan.now (core_state plan.now self.now) events.now }
    {
        match self.tables.next {
            Some(entry) => come_next(plan, self.tables.row, self.tables.made, entry.line, events),
            None => events.is_empty(),
        }
    }

    /// The block that a space spills next: of its blocks that are Here and not pinned the one that was used longest ago, or under
    /// `mru` the one that was used last. None comes exactly where each of them is pinned. It takes no memory.
    pub fn victim(&self, plan: &Plan, space: u32) -> Option<u32>
        requires well { IsWellFormed plan.now }
        requires core { IsCoreOf plan.now self.now }
        requires space { IsOneOf (spaces plan.now) space }
        ensures { result ≡ victim plan.now (core_state plan.now self.now) space }
    {
        self.tables.victim(plan, space)
    }

    /// How many elements moved so far.
    pub fn moved(&self) -> u64
        ensures { (plan : Plan) → result ≡ (core_state plan self.now).moved }
    {
        self.tables.moved
    }

    /// The home of a block.
    pub fn home(&self, block: u32) -> u32
        ensures { (plan : Plan) → result ≡ (core_state plan self.now).homes block }
    {
        self.tables.home_of(block)
    }

    /// Where the values of a copy are. None where there is no copy.
    pub fn copy(&self, space: u32, block: u32) -> Option<CopyState>
        ensures state { (plan : Plan) → result ≡ option_map (λ c. c.state) ((core_state plan self.now).copies space block) }
        ensures any { is_some result ≡ is_in_state is_any (copies_of self.now.copies space block) }
    {
        self.tables.copies.state(space, block)
    }

    /// The version of each place of a copy; 4294967295 where it was never written there.
    pub fn versions(&self, space: u32, block: u32) -> &RunMap
        requires { is_in_state is_any (copies_of self.now.copies space block) ≡ true }
        ensures { (plan : Plan) → result.now.list ≡ versions_of ((core_state plan self.now).copies space block) }
    {
        match self.tables.copies.get(space, block) {
            Some(copy) => &copy.versions,
            None => unreachable!(),
        }
    }

    /// How far a task is.
    pub fn task(&self, task: u32) -> TaskState
        ensures { (plan : Plan) → result ≡ (core_state plan self.now).tasks task }
    {
        self.tables.task(task)
    }

    /// The region that is open.
    pub fn region(&self) -> Option<u32>
        ensures { (plan : Plan) → result ≡ (core_state plan self.now).region }
    {
        self.tables.region
    }

    /// The space and the block of the pin.
    pub fn pin(&self) -> Option<(u32, u32)>
        ensures { (plan : Plan) → result ≡ (core_state plan self.now).pin }
    {
        self.tables.pin
    }
}
