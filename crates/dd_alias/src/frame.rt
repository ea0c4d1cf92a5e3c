ghost use Rattle.std.specs.Prelude.{◌≡◌, ◌↔◌, ◌≤◌, All, IsTrue, List, false};
ghost use Rattle.dd_alias.specs.declared.extent.Extent.{Extent};
ghost use Rattle.dd_alias.specs.Extents.{Face};

use crate::extent::Extent;
use crate::interval::Interval;
use dd_views::Items;

/// The arrays, rows and columns between which some extents stand.
#[derive(Clone, Copy, Debug)]
pub struct Frame {
    pub rows: Interval,
    pub cols: Interval,
    pub first_array: u32,
    pub last_array: u32,
}

impl Frame {
    ghost use Rattle.dd_alias.specs.Frames.{AreInside, IsInside};

    /// A frame around all extents of some pieces.
    pub fn around(pieces: &[Items<Extent>]) -> Frame
        ensures { All (λ (p : List Extent). AreInside result p) pieces.now }
    {
        let mut frame = Frame {
            rows: Interval::none(),
            cols: Interval::none(),
            first_array: u32::MAX,
            last_array: 0,
        };
        for piece in pieces {
            frame = frame.with_all(piece.as_slice());
        }
        frame
    }

    /// The frame, widened to some extents more.
    fn with_all(&self, extents: &[Extent]) -> Frame
        ensures before { (e : Extent) → IsInside self.now e → IsInside result e }
        ensures added { AreInside result extents.now }
    {
        let mut frame = *self;
        for extent in extents {
            frame = frame.with(extent);
        }
        frame
    }

    /// The frame, widened to one extent more.
    fn with(&self, extent: &Extent) -> Frame
        ensures before { (e : Extent) → IsInside self.now e → IsInside result e }
        ensures added { IsInside result extent.now }
    {
        Frame {
            rows: self.rows.joined(&extent.rows),
            cols: self.cols.joined(&extent.cols),
            first_array: self.first_array.min(extent.array),
            last_array: self.last_array.max(extent.array),
        }
    }

    /// Whether what is inside may face an extent.
    pub fn faces(&self, extent: &Extent) -> bool
        ensures { result ≡ false → (e : Extent) → IsInside self.now e → ¬ Face e extent.now }
    {
        if !self.cols.meets(&extent.cols) {
            return false;
        }
        if !self.rows.meets(&extent.rows) {
            return false;
        }
        self.has_array(extent.array)
    }

    /// Whether the array is one of those from the first to the last.
    fn has_array(&self, array: u32) -> bool
        ensures { IsTrue result ↔ ((self.now.first_array ≤ array) × (array ≤ self.now.last_array)) }
    {
        self.first_array <= array && array <= self.last_array
    }
}
