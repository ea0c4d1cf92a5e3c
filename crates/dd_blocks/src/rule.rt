/// How the tasks of a region are placed on processors.
#[derive(Clone, Copy, Debug, PartialEq, Eq)]
pub enum Rule {
    /// Round robin: one after the other.
    Rr,
    /// By the home of what a task writes.
    Home,
}
