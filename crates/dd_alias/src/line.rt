ghost use Rattle.std.specs.Prelude.{◌≡◌};

/// Numbers that rise or fall in steps, from `first` on.
#[derive(Clone, Copy, Debug)]
pub struct Line {
    pub first: u64,
    pub stride: u64,
    pub rises: bool,
}

impl Line {
    ghost use Rattle.dd_alias.specs.Lines.{Reaches, line_at};

    /// The number at a turn, from 0.
    pub fn number(&self, turn: u64) -> u64
        requires { Reaches self.now turn }
        ensures { result ≡ line_at self.now turn }
    {
        let way = turn * self.stride;
        if self.rises {
            self.first + way
        } else {
            self.first - way
        }
    }
}
