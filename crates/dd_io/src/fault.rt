/// A read or a write that failed. The object that failed has counted it.
#[derive(Clone, Copy, Debug, PartialEq, Eq)]
pub struct IoFault;
