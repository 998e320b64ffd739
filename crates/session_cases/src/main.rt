//! Runs whole sessions over the shelf and the sink in memory, and compares how each ended and what it wrote with what it
//! has to give.
//!
//! The sessions are data: the file `bundles` in the folder where it runs names the bundles of cases in their order, one
//! for each subject. Each case has its words, its files and, after them, what is expected of it, written from the rules of
//! the formats (`case_files` says how). It prints `ok` and the name of each run that came as expected, else both texts,
//! and then it ends with an error. A case more, and a bundle more, needs no code and no proof, and its lines of `stdout`,
//! which `bench/check/cases` writes.
#![tactic(auto)]

mod poor;
mod running;

use anyhow::{Result, bail};
use case_files::read_cases;
use running::run_case;
use std::fs;

fn main(rt: HostRuntime) -> Result<()> {
    let bundles = fs::read_to_string(&rt, "bundles")?;
    let mut all = true;
    for bundle in bundles.lines() {
        all = run_bundle(&rt, bundle)? && all;
    }
    if !all {
        bail!("some cases gave something else");
    }
    Ok(())
}

// Whether all its cases came as expected.
fn run_bundle(rt: &HostRuntime, bundle: &str) -> Result<bool> {
    let text = fs::read_to_string(rt, bundle)?;
    let cases = read_cases(rt.alloc(), &text)?;
    let mut all = true;
    for case in &cases {
        all = run_case(rt, case)? && all;
    }
    Ok(all)
}
