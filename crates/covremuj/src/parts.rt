ghost use Rattle.std.specs.Prelude.{◌≡◌};
ghost use Rattle.std.specs.Box.Ownership.{box_owns};

use std::alloc::Allocator;
use std::marker::Model;

/// What a box is made of: the address of what lies in it, and the allocator that takes its memory back. Whoever has both has what the
/// box had, so that the address can go where no box may, through a handle that C keeps, and come back.
pub struct Parts<T, A: Allocator> {
    pub(crate) address: *mut T,
    pub(crate) allocator: A,
    /// What lies at the address.
    pub ghost inside: { T },
}

impl<T, A: Allocator> Model for Parts<T, A> {
    ghost also_owns = { λ parts. box_owns (A.dealloc_token parts.allocator) T.row parts.address parts.inside };
}

impl<T, A: Allocator> Parts<T, A> {
    /// Takes a box apart.
    pub fn of_box(boxed: Box<T, A>) -> Parts<T, A>
    where
        T: Drop,
        ensures { result.inside ≡ boxed.value }
    {
        let (address, allocator) = Box::into_raw_with_allocator(boxed);
        Parts { address, allocator }
    }

    /// Makes the box of its parts again.
    pub fn together(self) -> Box<T, A>
        ensures { result.value ≡ self.inside }
    {
        let Parts { address, allocator } = self;
        unsafe { Box::from_raw(allocator, address) }
    }
}
