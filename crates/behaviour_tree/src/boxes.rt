//! Values with several owners.

ghost use Rattle.std.specs.Prelude.{◌≡◌, IfOk};

use lotos_base::NoMemory;
use std::alloc::Global;
use std::rc::Rc;

/// The value with an owner that can be copied.
pub fn shared<T: Drop>(alloc: Global, value: T) -> Result<Rc<T>, NoMemory>
    ensures { IfOk result (λ it. it.value ≡ value) }
{
    Ok(Rc::new(alloc, value)?)
}

/// One more owner of the value.
pub fn owner<T: Drop>(value: &Rc<T>) -> Result<Rc<T>, NoMemory>
    ensures { IfOk result (λ it. it.value ≡ value.now.value) }
{
    Ok(value.clone()?)
}
