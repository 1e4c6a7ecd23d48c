//! Clones of invocations.

ghost use Rattle.std.specs.Prelude.{◌≡◌};

use crate::invocation::{Invocation, Invocations};
use std::alloc::AllocError;

impl Clone for Invocation {
    ghost is_clone = { λ v w. w ≡ v };

    #[cycle(clone)]
    fn clone(&self) -> Result<Invocation, AllocError> {
        let function = self.function.clone()?;
        let sub_invocations = self.sub_invocations.clone()?;
        Ok(Invocation {
            function,
            sub_invocations,
        })
    }
}

impl Clone for Invocations {
    ghost is_clone = { λ v w. w ≡ v };

    #[cycle(clone)]
    fn clone(&self) -> Result<Invocations, AllocError> {
        let mut copies = Vec::new(self.allocator());
        for item in self.as_slice() {
            copies.push(item.clone()?)?;
        }
        Ok(Invocations::from_vec(copies))
    }
}
