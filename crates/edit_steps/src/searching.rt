//! What `find` and `check` answer, and the lines of what they found.
ghost use Rattle.std.specs.Prelude.{◌≡◌, ◌≤◌, ◌++◌, [], IfOk, OnOk, OnErr};
ghost use Rattle.osm_base.specs.Extends.{Extends};
ghost use Rattle.edit_script.specs.declared.reply.StepReply.TheVariants.{Done};
ghost use Rattle.map_search.specs.Meets.{found};
ghost use Rattle.map_search.specs.Query.{depth};
ghost use Rattle.map_checks.specs.Findings.{findings};
ghost use Rattle.map_checks.specs.declared.finding.Finding.TheVariants.{Doubled};
ghost use Rattle.edit_steps.specs.Planned.{IsSized};
ghost use Rattle.edit_steps.specs.declared.looks.Behind.TheVariants as behind;
ghost use Rattle.edit_steps.specs.Searched.{finding_line, findings_lines, key_line};

use crate::looks::Behind;
use crate::response::Response;
use dataset::DataSet;
use map_checks::{Finding, Findings, list_findings};
use map_search::{Query, find};
use osm_base::{Key, write_key};
use std::alloc::AllocError;

/// The keys that meet a query stand behind the reply. It costs what the search costs.
///
/// # Errors
/// No memory was left.
pub fn answer_find(ds: &DataSet, query: &Query) -> Result<Response, AllocError>
    requires { depth query.now ≤ 1100 }
    ensures answer { IfOk result (λ answer. answer ≡ record { reply = Done []; behind = behind.Found (found ds.now query.now) }) }
    ensures sized { IfOk result (λ answer. IsSized answer.behind) }
{
    let keys = find(ds, query)?;
    Ok(Response::look(ds.alloc(), Behind::Found(keys)))
}

/// What is broken stands behind the reply. It costs what the checks cost.
///
/// # Errors
/// No memory was left.
pub fn answer_check(ds: &DataSet) -> Result<Response, AllocError>
    ensures answer { IfOk result (λ answer. answer ≡ record { reply = Done []; behind = behind.Findings (findings ds.now) }) }
    ensures sized { IfOk result (λ answer. IsSized answer.behind) }
{
    let findings = list_findings(ds)?;
    Ok(Response::look(ds.alloc(), Behind::Findings(findings)))
}

/// Appends a key and the end of the line.
///
/// # Errors
/// No memory was left; what stood in `out` stays at its front.
#[tactic(auto, using(osm_base::proofs::ExtendLaws::extends_steps))]
pub fn write_key_line(key: Key, out: &mut Vec<u8>) -> Result<(), AllocError>
    ensures written { OnOk result (out.new.items ≡ out.old.items ++ key_line key) }
    ensures kept { OnErr result (Extends out.old.items out.new.items) }
{
    write_key(key, out)?;
    out.push(b'\n')?;
    Ok(())
}

/// Appends what is broken, one a line.
///
/// # Errors
/// No memory was left; what stood in `out` stays at its front.
#[tactic(auto, using(osm_base::proofs::ExtendLaws::extends_steps))]
pub fn write_findings(findings: &Findings, out: &mut Vec<u8>) -> Result<(), AllocError>
    ensures written { OnOk result (out.new.items ≡ out.old.items ++ findings_lines findings.now) }
    ensures kept { OnErr result (Extends out.old.items out.new.items) }
{
    for finding in findings.as_slice() {
        write_finding(*finding, out)?;
    }
    Ok(())
}

#[tactic(auto, using(osm_base::proofs::ExtendLaws::extends_steps))]
fn write_finding(finding: Finding, out: &mut Vec<u8>) -> Result<(), AllocError>
    ensures written { OnOk result (out.new.items ≡ out.old.items ++ finding_line finding) }
    ensures kept { OnErr result (Extends out.old.items out.new.items) }
{
    match finding {
        Finding::Doubled { key, of } => write_doubled(key, of, out),
        Finding::Repeated(key) => {
            out.extend_from_slice(b"repeated ")?;
            write_key_line(key, out)
        }
        Finding::OpenRing(key) => {
            out.extend_from_slice(b"openring ")?;
            write_key_line(key, out)
        }
    }
}

#[tactic(auto, using(osm_base::proofs::ExtendLaws::extends_steps))]
fn write_doubled(key: Key, of: Key, out: &mut Vec<u8>) -> Result<(), AllocError>
    ensures written { OnOk result (out.new.items ≡ out.old.items ++ finding_line (Doubled key of)) }
    ensures kept { OnErr result (Extends out.old.items out.new.items) }
{
    out.extend_from_slice(b"doubled ")?;
    write_key(key, out)?;
    out.push(b' ')?;
    write_key_line(of, out)
}
