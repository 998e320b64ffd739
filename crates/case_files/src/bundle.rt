//! Reads the cases of a bundle.

use crate::case::{Case, CaseFile, Failing, Run, Tools};
use anyhow::{Context, Result, bail};
use std::alloc::Global;

/// The cases that the text describes.
pub fn read_cases(alloc: Global, text: &str) -> Result<Vec<Case>> {
    let mut cases = Vec::new(alloc);
    for line in text.lines() {
        match line.strip_prefix("= ") {
            Some(directive) => direct(alloc, &mut cases, directive)?,
            None => add_line(&mut cases, line)?,
        }
    }
    Ok(cases)
}

fn direct(alloc: Global, cases: &mut Vec<Case>, directive: &str) -> Result<()> {
    let (verb, value) = directive.split_once(' ').unwrap_or((directive, ""));
    if verb == "case" {
        cases.push(Case {
            name: String::from_str(alloc, value)?,
            words: Vec::new(alloc),
            tools: Tools::All,
            files: Vec::new(alloc),
            runs: Vec::new(alloc),
        })?;
        return Ok(());
    }
    let case = cases.last_mut().context("a directive before any case")?;
    match verb {
        "word" => case.words.push(String::from_str(alloc, value)?)?,
        "file" => begin_file(alloc, case, value)?,
        "fill" => fill(case, value.parse::<u64>()?)?,
        "no-tools" => case.tools = Tools::None,
        "poor" => case.tools = Tools::Poor,
        "expect" => begin_run(alloc, case, Failing::Nothing, value)?,
        "shelf" => {
            let (call, status) = numbered(value)?;
            begin_run(alloc, case, Failing::Shelf(call), status)?;
        }
        "sink" => {
            let (call, status) = numbered(value)?;
            begin_run(alloc, case, Failing::Sink(call), status)?;
        }
        other => bail!("no directive {other}"),
    }
    Ok(())
}

// A file of the case; what the case has to give stands behind all its files.
fn begin_file(alloc: Global, case: &mut Case, name: &str) -> Result<()> {
    if !case.runs.is_empty() {
        bail!("the file {name} stands behind what is expected");
    }
    case.files.push(CaseFile {
        name: name.as_bytes().to_vec(alloc)?,
        bytes: Vec::new(alloc),
    })?;
    Ok(())
}

// A run with its status; the lines behind are what it writes.
fn begin_run(alloc: Global, case: &mut Case, failing: Failing, status: &str) -> Result<()> {
    case.runs.push(Run {
        failing,
        status: String::from_str(alloc, status)?,
        text: Vec::new(alloc),
    })?;
    Ok(())
}

// The number of a call, and the words of a status.
fn numbered(value: &str) -> Result<(u64, &str)> {
    let (call, status) = value.split_once(' ').context("a call without a status")?;
    Ok((call.parse::<u64>()?, status))
}

// Puts so many `#` into the last file.
fn fill(case: &mut Case, count: u64) -> Result<()> {
    let file = case.files.last_mut().context("a fill before any file")?;
    for _ in 0..count {
        file.bytes.push(b'#')?;
    }
    Ok(())
}

// Puts a line into what was begun last; before the first case it is a remark.
fn add_line(cases: &mut Vec<Case>, line: &str) -> Result<()> {
    let Some(case) = cases.last_mut() else {
        return Ok(());
    };
    if let Some(run) = case.runs.last_mut() {
        return unescape(line.as_bytes(), &mut run.text);
    }
    let file = case.files.last_mut().context("a line before any file")?;
    unescape(line.as_bytes(), &mut file.bytes)
}

// Appends the line with its LF, its escapes read.
fn unescape(line: &[u8], out: &mut Vec<u8>) -> Result<()> {
    let mut rest = line;
    loop {
        match rest {
            [b'\\', b't', after @ ..] => {
                out.push(b'\t')?;
                rest = after;
            }
            [b'\\', b'r', after @ ..] => {
                out.push(b'\r')?;
                rest = after;
            }
            [b'\\', b'\\', after @ ..] => {
                out.push(b'\\')?;
                rest = after;
            }
            [b'\\'] => return Ok(()),
            [byte, after @ ..] => {
                out.push(*byte)?;
                rest = after;
            }
            [] => break,
        }
    }
    out.push(b'\n')?;
    Ok(())
}
