//! The words of a case, and what is told of a run.

use crate::case::{Case, Run};
use anyhow::Result;
use std::alloc::{AllocError, Global};

/// The words that a case is run with: its own, or `editor` and `script`.
///
/// # Errors
/// No memory was left.
pub fn words_of(alloc: Global, case: &Case) -> Result<Vec<String>, AllocError> {
    if !case.words.is_empty() {
        return case.words.clone();
    }
    let mut words = Vec::new(alloc);
    words.push(String::from_str(alloc, "editor")?)?;
    words.push(String::from_str(alloc, "script")?)?;
    Ok(words)
}

/// Prints the name of a run that came as expected, or what was expected and what came. Whether it came as expected.
///
/// # Errors
/// Nothing could be printed, or what was written is no UTF-8.
pub fn tell(
    rt: &HostRuntime,
    case: &Case,
    run: &Run,
    status: &str,
    written: &[u8],
) -> Result<bool> {
    if status == run.status.as_str() && written == run.text.as_slice() {
        println!(rt; "ok {}{}", case.name, run.failing)?;
        return Ok(true);
    }
    println!(rt; "{}{}: expected was", case.name, run.failing)?;
    println!(rt; "{}\n{}", run.status, str::from_utf8(&run.text)?)?;
    println!(rt; "and this came")?;
    println!(rt; "{status}\n{}", str::from_utf8(written)?)?;
    Ok(false)
}
