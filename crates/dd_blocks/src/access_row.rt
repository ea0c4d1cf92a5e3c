ghost use Rattle.std.specs.Prelude.{◌≡◌};
ghost use Rattle.dd_blocks.specs.Elements.{reads, writes};

use dd_kernels::Mode;
use dd_views::View;

/// An access of a task: which elements, and how they are used.
#[derive(Clone, Copy, Debug, PartialEq, Eq)]
pub struct AccessRow {
    pub view: View,
    pub mode: Mode,
}

impl AccessRow {
    /// Whether the task reads its elements.
    pub fn reads(&self) -> bool
        ensures { result ≡ reads self.now.mode }
    {
        matches!(self.mode, Mode::Read | Mode::Both)
    }

    /// Whether the task writes its elements.
    pub fn writes(&self) -> bool
        ensures { result ≡ writes self.now.mode }
    {
        matches!(self.mode, Mode::Write | Mode::Both)
    }
}
