/// What a seat that wants the turn finds.
#[derive(Drop)]
pub enum Found<T> {
    /// The turn was free. It is the seat's now, with the value.
    Turn(T),
    /// Another seat holds the turn.
    Busy,
    /// The turn was ended. It will never be free again.
    Ended,
}
