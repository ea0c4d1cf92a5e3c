ghost use Rattle.std.specs.Prelude.{◌+◌, ◌↔◌, IsTrue, Contains};

/// Whether the call that comes after so many calls has its number, from 1, among those of the calls that fail.
pub fn next_fails(failing: &[u32], calls: u64) -> bool
    ensures { IsTrue result ↔ Contains failing.now (calls + 1) }
{
    failing
        .iter()
        .any(|number| *number > 0 && u64::from(*number) - 1 == calls)
}
