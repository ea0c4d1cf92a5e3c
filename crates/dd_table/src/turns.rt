//! What workers ask for: the next task, and to take back a task that was run.
ghost use Rattle.std.specs.Prelude.{◌≡◌, ◌↔◌, ◌∷◌, [], None, IsSome, IsTrue};
ghost use Rattle.dd_blocks.specs.WellFormed.{IsWellFormed};
ghost use Rattle.dd_legal.specs.Starts.{MayStart};
ghost use Rattle.dd_machine.specs.declared.event.Event.TheVariants.{Finish, Make};
ghost use Rattle.dd_machine.specs.declared.task_state.TaskState.TheVariants.{Held, Waiting};
ghost use Rattle.dd_machine.specs.Legal.{May, workers};
ghost use Rattle.dd_machine.specs.Words.{IsOneOf};
ghost use Rattle.dd_table.specs.Leading.{AllStand, ClaimGives, MayLead, ServeGives, Serves, Stands, StepGives, StillGives, served};
ghost use Rattle.dd_table.specs.Outs.{HasNone};
ghost use Rattle.dd_table.specs.Tables.{Enters, Gives, IsLeft, state_now};
ghost use Rattle.dd_table.specs.Turns.{MayFinish, NextGives};

use crate::fault::RunFault;
use crate::region::tasks_of;
use crate::table::Table;
use crate::took::Took;
use dd_machine::{Entry, Event, TaskState};
use dd_stamps::Work;
use dd_store::{Store, StoreFault};

/// How far tasks were led on.
#[derive(Drop)]
enum Step<'p> {
    /// One was claimed.
    Claimed(Work<'p>),
    /// Some entry was made.
    Moved,
    /// None could be made.
    Stood,
}

impl<'p, D: Store> Table<'p, D> {
    /// Leads the tasks of the region on, until one can be claimed or none can be led on. Each is led on as far as it goes: it is
    /// held, its blocks are made, called back and brought up to date, and blocks are spilled for them.
    ///
    /// It goes through the tasks of the region once for each round in which one was led on, and once more.
    pub fn next(&mut self, worker: u32) -> Took<'p>
        requires well { IsWellFormed self.old.holding.ledger.plan.now }
        requires open { IsSome (state_now self.old).region }
        requires no_pin { (state_now self.old).pin ≡ None }
        requires worker { IsOneOf workers worker }
        requires free { HasNone (state_now self.old) worker }
        ensures { NextGives self.old self.new worker result }
    {
        if self.cause.is_some() {
            return Took::Stopped;
        }
        loop {
            let step = match self.turn(worker) {
                Ok(step) => step,
                Err(fault) => return fault.into(),
            };
            match step {
                Step::Claimed(work) => return Took::Work(work),
                Step::Moved => {}
                Step::Stood => return self.still(),
            }
        }
    }

    // Goes once through the tasks of the region. Where nothing was led on, each was asked in the state that stands.
    fn turn(&mut self, worker: u32) -> Result<Step<'p>, RunFault>
        requires lead { MayLead self.old }
        requires worker { IsOneOf workers worker }
        requires free { HasNone (state_now self.old) worker }
        ensures { StepGives self.old self.new worker AllStand result }
    {
        let Some(region) = self.core().region() else {
            unreachable!()
        };
        let (before, last) = tasks_of(self.plan(), region);
        let mut moved = false;
        for i in before..last {
            match self.lead(i + 1, worker)? {
                Step::Claimed(work) => return Ok(Step::Claimed(work)),
                Step::Moved => moved = true,
                Step::Stood => {}
            }
        }
        if moved {
            Ok(Step::Moved)
        } else {
            Ok(Step::Stood)
        }
    }

    // Leads one task on as far as it goes.
    fn lead(&mut self, task: u32, worker: u32) -> Result<Step<'p>, RunFault>
        requires lead { MayLead self.old }
        requires worker { IsOneOf workers worker }
        requires free { HasNone (state_now self.old) worker }
        ensures { StepGives self.old self.new worker (Stands task) result }
    {
        match self.core().task(task) {
            TaskState::Waiting => self.lead_waiting(task, worker),
            TaskState::Held => self.lead_held(task, worker),
            _ => Ok(Step::Stood),
        }
    }

    // Holds a task that waits, where that is legal, and leads it on.
    fn lead_waiting(&mut self, task: u32, worker: u32) -> Result<Step<'p>, RunFault>
        requires lead { MayLead self.old }
        requires worker { IsOneOf workers worker }
        requires free { HasNone (state_now self.old) worker }
        requires waiting { (state_now self.old).tasks task ≡ Waiting }
        ensures { StepGives self.old self.new worker (Stands task) result }
    {
        let event = Event::Hold { task };
        if !self.may(event) {
            return Ok(Step::Stood);
        }
        self.note(event)?;
        match self.lead_held(task, worker)? {
            Step::Claimed(work) => Ok(Step::Claimed(work)),
            _ => Ok(Step::Moved),
        }
    }

    // Leads a Held task on, and claims it where it can start then.
    fn lead_held(&mut self, task: u32, worker: u32) -> Result<Step<'p>, RunFault>
        requires lead { MayLead self.old }
        requires worker { IsOneOf workers worker }
        requires free { HasNone (state_now self.old) worker }
        requires held { (state_now self.old).tasks task ≡ Held }
        ensures { StepGives self.old self.new worker (Stands task) result }
    {
        let moved = self.serve_all(task)?;
        if self.core().claimable(self.plan(), task) {
            return Ok(Step::Claimed(self.claim(task, worker)?));
        }
        if moved {
            Ok(Step::Moved)
        } else {
            Ok(Step::Stood)
        }
    }

    // Makes all events that lead a Held task on, and answers whether there was one.
    fn serve_all(&mut self, task: u32) -> Result<bool, RunFault>
        requires lead { MayLead self.old }
        requires held { (state_now self.old).tasks task ≡ Held }
        ensures { ServeGives self.old self.new task result }
    {
        let mut served = false;
        while let Some(event) = self.core().next_for(self.plan(), task) {
            self.serve(event)?;
            served = true;
        }
        Ok(served)
    }

    // Makes an event that leads a Held task on, with the entry that follows it at once.
    fn serve(&mut self, event: Event) -> Result<(), RunFault>
        requires well { IsWellFormed self.old.holding.ledger.plan.now }
        requires left { IsLeft self.old }
        requires running { self.old.cause ≡ None }
        requires serves { Serves self.old.holding.ledger.plan.now (state_now self.old) event }
        ensures { Gives self.old self.new (served self.old.holding.ledger.plan.now (state_now self.old) event) result }
    {
        match event {
            Event::Pick { space, block } => self.spill(space, block),
            Event::Make { task, block } => self.make(task, block),
            Event::Call { space, block } => self.call(space, block),
            Event::Lend {
                task,
                block,
                source,
            } => self.lend(task, block, source),
            Event::Copy {
                task,
                block,
                source,
                count: _,
            } => self.copy(task, block, source),
            _ => unreachable!(),
        }
    }

    // Whether an event is legal.
    fn may(&self, event: Event) -> bool
        requires well { IsWellFormed self.now.holding.ledger.plan.now }
        requires left { IsLeft self.now }
        ensures { IsTrue result ↔ May self.now.holding.ledger.plan.now (state_now self.now) event }
    {
        let line = self.line();
        self.core().legal(self.plan(), Entry { line, event })
    }

    // Gives a task's space a copy of a block.
    fn make(&mut self, task: u32, block: u32) -> Result<(), RunFault>
        requires well { IsWellFormed self.old.holding.ledger.plan.now }
        requires left { IsLeft self.old }
        requires running { self.old.cause ≡ None }
        requires legal { May self.old.holding.ledger.plan.now (state_now self.old) (Make task block) }
        ensures { Gives self.old self.new (Make task block ∷ []) result }
    {
        let line = self.line();
        let event = Event::Make { task, block };
        match self.holding.make(Entry { line, event }, task, block) {
            Ok(()) => Ok(()),
            Err(_) => Err(self.stop(StoreFault::Memory)),
        }
    }

    // Claims a task, with all that it finds and the room for what it writes.
    fn claim(&mut self, task: u32, worker: u32) -> Result<Work<'p>, RunFault>
        requires lead { MayLead self.old }
        requires worker { IsOneOf workers worker }
        requires free { HasNone (state_now self.old) worker }
        requires start { MayStart self.old.holding.ledger.plan.now (state_now self.old) task }
        ensures { ClaimGives self.old self.new worker result }
    {
        let line = self.line();
        let event = Event::Claim { task, worker };
        match self.holding.claim(Entry { line, event }, task, worker) {
            Ok(work) => Ok(work),
            Err(_) => Err(self.stop(StoreFault::Memory)),
        }
    }

    // What stands where no task can be led on: where none runs, every task of the region is done.
    fn still(&self) -> Took<'p>
        requires lead { MayLead self.now }
        requires stand { AllStand self.now.holding.ledger.plan.now (state_now self.now) }
        ensures { StillGives self.now result }
    {
        let Some(region) = self.core().region() else {
            unreachable!()
        };
        match self.running(region) {
            0 => Took::AllDone,
            running => Took::Idle { running, out: 0 },
        }
    }

    /// Takes a work back that was run: its task is done, and what it wrote is current. It takes no memory.
    pub fn finish(&mut self, work: Work<'p>)
        requires well { IsWellFormed self.old.holding.ledger.plan.now }
        requires work { MayFinish self.old work }
        ensures { Enters self.old self.new (Finish work.entry.task ∷ []) }
    {
        let line = self.line();
        let event = Event::Finish { task: work.task() };
        self.holding.finish(Entry { line, event }, &work);
    }
}
