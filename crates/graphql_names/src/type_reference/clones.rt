ghost use Rattle.std.specs.Prelude.{◌≡◌, IfOk};

use super::Type;
use std::alloc::AllocError;

impl<N: Clone> Clone for Type<N> {
    ghost is_clone = { λ of_type copy. N.is_clone of_type.name copy.name
        × (copy.modifiers ≡ of_type.modifiers) };

    /// The same reference once more, to a clone of its name. Where a clone of a name is the same
    /// name, the references are the same. An error is want of memory.
    fn clone(&self) -> Result<Type<N>, AllocError>
        ensures clones { IfOk result
            (λ copy. N.is_clone self.now.name copy.name × (copy.modifiers ≡ self.now.modifiers)) }
        ensures same { IfOk result
            (λ copy. ((x y : N) → N.is_clone x y → y ≡ x) → copy ≡ self.now) }
    {
        let modifiers = self.modifiers.clone()?;
        let name = self.name.clone()?;
        Ok(Type { name, modifiers })
    }
}
