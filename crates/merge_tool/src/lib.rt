//! The tool that takes in downloads.
//!
//! `merge` of `tool_api` says what comes of a download: each object that is told of takes the outcome of its case, lost
//! objects that are wanted come back, candidates that are held stay and all others go, and what living objects refer to is
//! there. One draft is built, in the order of the modules: `staging` takes the case of each key that is told of, and lists
//! the names, the candidates and the clashes; `naming` lets names enter that aren't there, and lists the lost ones; `wanting`
//! walks from these, `holding` from the names of both to the candidates, and `writing` puts what comes back, stays or goes.
//!
//! `staging` goes along what is told and along the table at once: where both stand by rank each key is found where the one
//! before it was left, and none is hashed or sought. An object that is left as it is, since nothing new is told of it, costs a
//! comparison of versions: what it refers to was there before, so it names nothing, and only where such an object might go
//! the index is asked who refers to it. All other modules look at what is renewed, at what that names, and at what chains
//! reach by the index. Where nothing that is told was known, the lists of the walks are empty, and only `staging` and `naming`
//! cost.
//! Where there is no object yet, and all to which the told objects refer is told of as there, the table is to have just
//! what is told. `arrival` plans that as a patch, without a draft and without a look at any reference. What holds of a merged
//! table, whatever code makes it, stands in `job_laws`.
#![tactic(auto)]

mod arrival;
mod clash;
mod entries;
mod holding;
mod merge;
mod naming;
mod staging;
mod wanting;
mod writing;

pub use merge::{Merge, MergeTool};
