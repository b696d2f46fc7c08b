use crate::seat::Seat;
use std::sync::Arc;
use table_heap::Heap;

/// A share of a heap, by which its seats can be told from those of others.
#[derive(Drop)]
pub struct Share {
    heap: Arc<Heap>,
}

impl Seat {
    /// A share of its heap, if one more can be counted.
    pub fn share(&self) -> Option<Share> {
        match Arc::try_clone(&self.heap) {
            Ok(heap) => Some(Share { heap }),
            Err(_) => None,
        }
    }

    /// Whether it is a seat of that heap: one share more of its own is one more of that one. While nobody else gives up a seat of
    /// either. Nothing is proved of the answer.
    pub fn is_of(&self, share: &Share) -> bool {
        let before = Arc::strong_count(&share.heap);
        match Arc::try_clone(&self.heap) {
            Ok(_more) => before < Arc::strong_count(&share.heap),
            Err(_) => false,
        }
    }
}
