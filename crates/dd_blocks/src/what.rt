ghost use Rattle.std.specs.Prelude.{◌≡◌};

use crate::name::Name;

/// What a statement does. Arrays, spaces and regions go by their numbers.
#[derive(Debug, Drop)]
pub enum What {
    /// An array is made.
    Put(u32),
    /// The values of an array are printed.
    Print(u32),
    /// The sum of an array is printed, under the name that the statement gives it.
    Sum { array: u32, name: Name },
    /// The number of moved elements is printed.
    Moved,
    /// An array gets a second name.
    Same(u32),
    /// A name of an array ends, and with the last one the array.
    Drop { array: u32, last: bool },
    /// A space becomes the home of an array's blocks.
    MoveTo { array: u32, space: u32 },
    /// The tasks of a region run.
    Region(u32),
}

impl What {
    ghost use Rattle.std.specs.Prelude.{length};
    ghost use Rattle.dd_blocks.specs.ArrayHomes.{HasArray, homes_after};
    ghost use Rattle.dd_blocks.specs.Homes.{space_moved_to};

    /// The space that becomes the home of an array's blocks, where the statement moves them.
    pub(crate) fn moves(&self, moved: u32) -> Option<u32>
        ensures { result ≡ space_moved_to moved self.now }
    {
        match self {
            What::MoveTo { array, space } if *array == moved => Some(*space),
            _ => None,
        }
    }

    /// Puts the space that becomes the home of an array's blocks into `homes`, which has a space for each array, where
    /// the statement moves one.
    pub fn move_home(&self, homes: &mut [u32])
        requires { HasArray (length homes.old) self.now }
        ensures { homes.new ≡ homes_after homes.old self.now }
    {
        if let What::MoveTo { array, space } = self {
            homes[*array as usize - 1] = *space;
        }
    }
}
