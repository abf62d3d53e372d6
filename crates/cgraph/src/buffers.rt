// Lists that are made for a history or a question.
use std::alloc::{AllocError, Global};

// `vec!` would ask labels for `Clone`. Not by `collect`: where there is no memory for the whole, it fills what it gets before it gives up.
pub fn filled<T: Copy + Drop>(heap: Global, x: T, size: usize) -> Result<Vec<T>, AllocError> {
    let mut items = Vec::with_capacity(heap, size)?;
    items.resize(size, x)?;
    Ok(items)
}
