ghost use Rattle.std.specs.Prelude.{◌≡◌, Bool, true, ◌&&◌};
ghost use base.Fml.{ftrue};

use std::marker::{Brand, Model};

/// What a call picks of a mark.
pub trait Mark {
    // Whether what is made may be relied on.
    ghost told: { Bool };
}

impl Mark for Brand {
    ghost told = { true };
}

/// A mark that contracts alone see. It has no bytes.
pub struct Told {
    pub ghost mark: { Bool },
}

impl Model for Told {
    // Without this a ghost field may hold no data, but only facts. A mark owns nothing.
    ghost also_owns = { λ _. ftrue };
}

impl Told {
    /// The mark that the call picks.
    pub fn picked<M: Mark>() -> Told
        ensures { result.mark ≡ M.told }
    {
        Told {}
    }

    /// A mark that is true.
    pub fn yes() -> Told
        ensures { result.mark ≡ true }
    {
        Told::picked::<Brand>()
    }

    /// The same mark once more.
    pub fn same(a: &Told) -> Told
        ensures { result.mark ≡ a.now.mark }
    {
        Told::both(a, &Told::yes())
    }

    /// A mark that is true where both are.
    pub fn both(a: &Told, b: &Told) -> Told
        ensures { result.mark ≡ (a.now.mark && b.now.mark) }
    {
        Told::of_two::<Brand>(a, b)
    }

    // The mark that the call picks, beside two others: a pick can only speak of what the call is passed.
    fn of_two<M: Mark>(_a: &Told, _b: &Told) -> Told
        ensures { result.mark ≡ M.told }
    {
        Told::picked::<M>()
    }
}

unsafe impl Send for Told {}

impl Drop for Told {
    fn drop(self) {
        let Self {} = self;
    }
}
