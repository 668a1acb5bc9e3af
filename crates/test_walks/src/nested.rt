// Expressions with many groups.
use std::alloc::{AllocError, Global};

/// A label in so many groups, each of which may come any number of times.
pub(crate) fn nested(alloc: Global, label: &str, count: u32) -> Result<String, AllocError> {
    let mut text = String::new(alloc);
    for _ in 0..count {
        text.push_str("(")?;
    }
    text.push_str(label)?;
    for _ in 0..count {
        text.push_str(")*")?;
    }
    Ok(text)
}
