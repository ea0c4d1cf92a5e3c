//! The kernel of a work that was handed out.
ghost use Rattle.std.specs.Prelude.{◌≡◌, [], true};
ghost use Rattle.dd_blocks.specs.WellFormed.{IsWellFormed};
ghost use Rattle.dd_stamps.specs.declared.work.Stage.TheVariants.{Collecting, Ran};
ghost use Rattle.dd_stamps.specs.declared.work.Work.{Work as OneWork};
ghost use Rattle.dd_stamps.specs.Works.{IsSameWork};

use dd_apply::apply;
use dd_stamps::Work;

/// What is handed out to be run. The work of a task alone is.
pub trait RunWork {
    ghost may_run: { Self → Type 0 };

    ghost was_run: { Self → Self → Type 0 };

    /// Runs it. It takes no memory.
    fn run(&mut self)
        requires { may_run self.old }
        ensures { was_run self.old self.new };
}

impl<'p> RunWork for Work<'p> {
    ghost may_run = { λ w. IsWellFormed w.plan.now × (w.stage ≡ Collecting) × (w.left.items ≡ []) };

    ghost was_run = { λ v w. IsSameWork v w × (w.stage ≡ Ran) × (w.told.mark ≡ v.told.mark) };

    /// Applies the kernel to the buffers. It takes no memory.
    fn run(&mut self) {
        let mut args = self.begin();
        let row = self.plan().task(self.task());
        apply(row.kernel, row.scalar, &mut args);
        self.done(args);
    }
}
