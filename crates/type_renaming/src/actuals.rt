//! The actual ones of formal members.

ghost use Rattle.std.specs.Prelude.{◌≡◌, ◌<◌, get_or, length};

/// The number of the actual one of the member of this number, if it is formal.
pub fn actual_at(actuals: &[Option<u32>], number: usize) -> Option<u32>
    requires { number < length actuals.now }
    ensures { result ≡ get_or actuals.now number result }
{
    actuals[number]
}
