//! Lists.

ghost use Rattle.std.specs.Prelude.{◌≡◌, ◌++◌, IfOk};

use lotos_base::NoMemory;

/// The members of the first list, and then those of the second. Where the first one is empty the
/// second stays where it is.
pub fn appended<T: Drop>(first: Vec<T>, second: Vec<T>) -> Result<Vec<T>, NoMemory>
    ensures { IfOk result (λ made. made.items ≡ first.items ++ second.items) }
{
    if first.is_empty() {
        return Ok(second);
    }
    let mut made = first;
    let mut rest = second;
    made.append(&mut rest)?;
    Ok(made)
}
