/// A value that is handed over. `K` is what stays the same while it is: the key of the lock, to which the value is compared.
pub trait Baton<K> {
    // What holds of the value whenever the turn is free. Whoever gives the turn has to show it.
    ghost fits: { K → Self → Type 0 };

    // What holds of it besides once the turn was ended. Whoever ends it has to show it.
    ghost over: { K → Self → Type 0 };
}

/// What a seat knows. Contracts alone speak of it, and no value of it is made.
pub struct View<K> {
    /// The key of its lock.
    pub about: K,
    /// Whether it holds the turn.
    pub holds: bool,
    /// Whether it has seen that the turn was ended.
    pub ended: bool,
}
