//! A download into a table without objects.
ghost use Rattle.std.specs.Prelude.{◌≡◌, IfOk};
ghost use Rattle.std.specs.FinMap as map;
ghost use Rattle.osm_table.specs.Told.{IsClosed};
ghost use Rattle.dataset.specs.Sound.{IsSound};
ghost use Rattle.tool_api.specs.Merged.{merge};
ghost use Rattle.tool_api.specs.Planned.{Plans};

use dataset::DataSet;
use osm_table::{Shared, ToldMap};
use std::alloc::AllocError;
use tool_api::{Plan, Refusal};

/// The plan of a download into an empty table, where all to which the told objects refer is told of as there: nothing
/// clashes, comes back, goes or is missing, so the table is to have just what is told. It costs nothing, since the difference
/// shares what is told.
///
/// # Errors
/// No memory was left.
pub fn arrival_plan(ds: &DataSet, told: &Shared<ToldMap>, limit: u64) -> Result<Plan, AllocError>
    requires sound { IsSound ds.now }
    requires empty { map.len ds.now.entries ≡ 0 }
    requires closed { IsClosed told.now.told }
    ensures { IfOk result (Plans ds.now (merge ds.now limit told.now)) }
{
    let map = told.value();
    map.sound();
    if limit < map.len() as u64 {
        return Ok(Plan::Refused(Refusal::TableFull));
    }
    Ok(Plan::Ready {
        patch: ds.patch_of_told(told)?,
    })
}
