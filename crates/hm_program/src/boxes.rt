//! Boxes for what is handed in.
ghost use Rattle.std.specs.Prelude.{◌≡◌, IfOk, Ok};

use hm_tree::Memory;
use std::alloc::Global;

/// A text lens in a box, where it could be made.
pub fn boxed<T: Drop>(alloc: Global, lens: Result<T, Memory>) -> Result<Box<T>, Memory>
    ensures { IfOk result (λ b. lens ≡ Ok b.value) }
{
    Ok(Box::new(alloc, lens?)?)
}
