//! The tables of the machine.
ghost use Rattle.std.specs.Prelude.{◌≡◌, ◌<◌, length, option_map, slice_index};
ghost use Rattle.dd_blocks.specs.WellFormed.{IsWellFormed};
ghost use Rattle.dd_copies.specs.Numbers.{at_number, or_else};
ghost use Rattle.dd_tables.specs.Places.{IsPlace};
ghost use Rattle.dd_tables.specs.Sized.{IsSized};
ghost use Rattle.dd_tables.specs.Tables.{homes_of, state_of, tasks_of};
ghost use Rattle.dd_machine.specs.Tests.{Has, is_any, versions_of};
ghost use Rattle.dd_machine.specs.Words.{element};

use crate::elements::Element;
use dd_blocks::Plan;
use dd_copies::{Copies, at};
use dd_machine::{CopyState, Entry, TaskState};
use dd_recency::Order;
use dd_spans::RunMap;

/// The state of the machine. It holds no values.
#[derive(Debug, Drop)]
pub struct Tables {
    pub copies: Copies,
    pub orders: Vec<Order>,
    pub tasks: Vec<TaskState>,
    pub current: RunMap,
    pub homes: Vec<u32>,
    pub moved: u64,
    pub region: Option<u32>,
    pub pin: Option<(u32, u32)>,
    pub row: u32,
    pub made: u32,
    /// The entry that the statements ask for next.
    pub next: Option<Entry>,
    /// For each processor the task that is Held or Running on it, or 0.
    pub at_work: Vec<u32>,
}

impl Tables {
    /// How far a task is. One that isn't in the Plan waits.
    #[tactic(auto, unfolding(crate::specs::Tables::tasks_of))]
    pub fn task(&self, task: u32) -> TaskState
        ensures { result ≡ tasks_of self.now.tasks.items task }
    {
        match at(self.tasks.as_slice(), task) {
            Some(state) => *state,
            None => TaskState::Waiting,
        }
    }

    /// The home of a block.
    #[tactic(auto, unfolding(crate::specs::Tables::homes_of))]
    pub fn home_of(&self, block: u32) -> u32
        ensures { result ≡ homes_of self.now.homes.items block }
    {
        match at(self.homes.as_slice(), block) {
            Some(home) => *home,
            None => 0,
        }
    }

    /// The current version at a place of a block.
    #[tactic(auto, unfolding(crate::specs::Currents::current_of))]
    pub fn current_at(&self, plan: &Plan, block: u32, i: u64) -> u32
        requires well { IsWellFormed plan.now }
        requires sized { IsSized plan.now self.now }
        requires place { IsPlace plan.now block i }
        ensures { result ≡ (state_of plan.now self.now).current (element plan.now block i) }
    {
        let e = Element::at(plan, block, i);
        self.current.get(e.number(plan))
    }
}
