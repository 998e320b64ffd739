//! Runs a case.

use crate::poor::PoorTool;
use anyhow::{Result, bail};
use case_files::{Case, Run, Tools, shelf_of, sink_of, tell, words_of};
use edit_history::{no_boxes, with_box};
use edit_session::{Status, run_editor, run_session};
use osm_outside::{MemoryShelf, MemorySink};
use std::alloc::{AllocError, Global};
use tool_api::Verb;
use tools_basic::{AddTool, TagTool};

/// Runs each run of the case, and prints its name, or what was expected and what came. Whether all came as expected.
pub fn run_case(rt: &HostRuntime, case: &Case) -> Result<bool> {
    if case.runs.is_empty() {
        bail!("nothing is expected of {}", case.name);
    }
    let mut all = true;
    for run in &case.runs {
        all = compare(rt, case, run)? && all;
    }
    Ok(all)
}

// Runs it once, and prints its name, or both texts.
fn compare(rt: &HostRuntime, case: &Case, run: &Run) -> Result<bool> {
    let alloc = rt.alloc();
    let mut shelf = shelf_of(alloc, case, run)?;
    let mut sink = sink_of(alloc, run)?;
    let words = words_of(alloc, case)?;
    let status = run_with(alloc, case.tools, &words, &mut shelf, &mut sink)?;
    let status = format!(in alloc; "{status}")?;
    tell(rt, case, run, &status, sink.as_bytes())
}

fn run_with(
    alloc: Global,
    tools: Tools,
    words: &[String],
    shelf: &mut MemoryShelf,
    sink: &mut MemorySink,
) -> Result<Status, AllocError> {
    match tools {
        Tools::All => run_editor(alloc, words, shelf, sink),
        Tools::None => Ok(run_session(alloc, words, no_boxes(alloc), shelf, sink)),
        Tools::Poor => run_with_poor(alloc, words, shelf, sink),
    }
}

// With two tools for tagging, of which the first never finds memory.
fn run_with_poor(
    alloc: Global,
    words: &[String],
    shelf: &mut MemoryShelf,
    sink: &mut MemorySink,
) -> Result<Status, AllocError> {
    let tools = no_boxes(alloc);
    let tools = with_box(tools, Verb::Tag, Box::new(alloc, PoorTool::new(alloc))?)?;
    let tools = with_box(tools, Verb::Tag, Box::new(alloc, TagTool::new(alloc))?)?;
    let tools = with_box(tools, Verb::Add, Box::new(alloc, AddTool::new(alloc))?)?;
    Ok(run_session(alloc, words, tools, shelf, sink))
}
