//! Things by their numbers, from 1.
ghost use Rattle.std.specs.Prelude.{◌≡◌, option_map};
ghost use Rattle.dd_copies.specs.Numbers.{at_number};

/// The thing of a number, where there is one.
pub fn at<T>(things: &[T], number: u32) -> Option<&T>
    ensures { option_map (λ r. r.now) result ≡ at_number things.now number }
{
    if number == 0 {
        return None;
    }
    things.get(number as usize - 1)
}
