//! What is out of a table. These tests take no memory, and may be asked at any time.
ghost use Rattle.std.specs.Prelude.{◌≡◌, ◌↔◌, ◌-◌, ℕ, false, Some, IsTrue};
ghost use Rattle.dd_blocks.specs.WellFormed.{IsWellFormed};
ghost use Rattle.dd_machine.specs.declared.event.Event.TheVariants.{Claim};
ghost use Rattle.dd_machine.specs.declared.task_state.TaskState.TheVariants.{Running};
ghost use Rattle.dd_machine.specs.Tests.{is_running};
ghost use Rattle.dd_table.specs.Outs.{HasNone, HasNothingOut, IsOut, event_at, running_count};
ghost use Rattle.dd_table.specs.Tables.{state_now};

use crate::region::tasks_of;
use crate::table::Table;
use dd_machine::{Event, TaskState};
use dd_stamps::Work;
use dd_store::Store;

impl<'p, D: Store> Table<'p, D> {
    /// Whether a worker has a task that runs. It goes through the tasks of the open region.
    pub fn has_out(&self, worker: u32) -> bool
        requires well { IsWellFormed self.now.holding.ledger.plan.now }
        ensures { (result ≡ false) ↔ HasNone (state_now self.now) worker }
    {
        let Some(region) = self.core().region() else {
            return false;
        };
        let (before, last) = tasks_of(self.plan(), region);
        for i in before..last {
            if self.runs_on(i + 1, worker) {
                return true;
            }
        }
        false
    }

    /// Whether some task runs. It goes through the tasks of the open region.
    pub fn any_out(&self) -> bool
        requires well { IsWellFormed self.now.holding.ledger.plan.now }
        ensures { (result ≡ false) ↔ HasNothingOut (state_now self.now) }
    {
        match self.core().region() {
            Some(region) => self.running(region) > 0,
            None => false,
        }
    }

    /// How many tasks of the open region run.
    pub(crate) fn running(&self, region: u32) -> u32
        requires well { IsWellFormed self.now.holding.ledger.plan.now }
        requires open { (state_now self.now).region ≡ Some region }
        ensures { result ≡ running_count self.now.holding.ledger.plan.now (state_now self.now) }
    {
        let (before, last) = tasks_of(self.plan(), region);
        let mut running = 0;
        for i in before..last {
            if self.runs(i + 1) {
                running += 1;
            }
        }
        running
    }

    /// Whether a work of the table's Plan is out of it: its task runs with its worker, the entry of its number is its Claim, and it
    /// says whether an entry up to that one is a Pick. It goes through no entries and no tasks.
    pub fn knows(&self, work: &Work<'p>) -> bool
        requires { work.now.plan ≡ self.now.holding.ledger.plan }
        ensures { IsTrue result ↔ IsOut self.now work.now }
    {
        if !self.is_claim(work) {
            return false;
        }
        if !self.runs_on(work.task(), work.worker()) {
            return false;
        }
        work.picked() == self.holding.ledger().picked_by(work.number() as usize)
    }

    // Whether a task runs on a worker.
    fn runs_on(&self, task: u32, worker: u32) -> bool
        ensures { IsTrue result ↔ ((state_now self.now).tasks task ≡ Running worker) }
    {
        self.state(task) == TaskState::Running(worker)
    }

    // Whether a task runs, on whatever worker.
    fn runs(&self, task: u32) -> bool
        ensures { result ≡ is_running ((state_now self.now).tasks task) }
    {
        matches!(self.state(task), TaskState::Running(_))
    }

    // The state of a task.
    fn state(&self, task: u32) -> TaskState
        ensures { result ≡ (state_now self.now).tasks task }
    {
        self.core().task(task)
    }

    // Whether the entry of a work's number is its Claim.
    fn is_claim(&self, work: &Work<'p>) -> bool
        ensures { IsTrue result ↔ (event_at self.now.holding.ledger.journal.items work.now.number ≡ Some (Claim work.now.task work.now.worker)) }
    {
        let number = work.number() as usize;
        if number == 0 {
            return false;
        }
        match self.journal().get(number - 1) {
            Some(entry) => is_event(
                entry.event,
                Event::Claim {
                    task: work.task(),
                    worker: work.worker(),
                },
            ),
            None => false,
        }
    }
}

/// Whether an event is another one.
fn is_event(event: Event, other: Event) -> bool
    ensures { IsTrue result ↔ (event ≡ other) }
{
    event == other
}
