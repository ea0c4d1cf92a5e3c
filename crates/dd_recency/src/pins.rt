//! Which blocks may not go.
ghost use Rattle.std.specs.Prelude.{◌≡◌, ℕ, Bool, nat_eq};
ghost use Rattle.std.specs.Set.{is_member};

/// What says of each block whether it is pinned. Who keeps that in another way than by a list implements it.
pub trait Pins {
    // The test that it stands for, and what must hold of it to be asked.
    ghost pinned: { Self → ℕ → Bool };

    ghost is_ready: { Self → Type 0 } = { λ _. Unit {0} };

    /// Whether a block is pinned.
    fn is_pinned(&self, block: u32) -> bool
        requires { is_ready self.now }
        ensures { result ≡ pinned self.now block };
}

/// The blocks of a list are pinned. Each question goes through the list.
#[derive(Drop)]
pub(crate) struct Listed<'a> {
    pub blocks: &'a [u32],
}

impl Pins for Listed<'_> {
    ghost pinned = { λ l. is_member nat_eq l.blocks.now };

    fn is_pinned(&self, block: u32) -> bool {
        self.blocks.contains(&block)
    }
}
