//! Stacks of what is left to be shown. The first thing that is left stands last.

ghost use Rattle.std.specs.Prelude.{◌≡◌, ◌++◌, OnOk, reverse};

use lotos_base::NoMemory;

/// Puts these on the stack, the first one last, so that it is the first that is left.
pub fn pile<T: Drop>(left: &mut Vec<T>, mut parts: Vec<T>) -> Result<(), NoMemory>
    ensures { OnOk result (reverse left.new.items ≡ parts.items ++ reverse left.old.items) }
{
    while let Some(part) = parts.pop() {
        left.push(part)?;
    }
    Ok(())
}
