//! Names of files as a person can read them.

use std::alloc::{AllocError, Global};

/// A name whose control characters are written as `\x` and two hexadecimal digits, so that no name makes a line of its own.
pub(crate) fn readable(alloc: Global, name: &str) -> Result<String, AllocError> {
    let mut readable = String::new(alloc);
    for each in name.chars() {
        if each.is_control() {
            let number = u32::from(each);
            readable.push_str(&format!(in alloc; "\\x{number:02x}")?)?;
        } else {
            readable.push(each)?;
        }
    }
    Ok(readable)
}
