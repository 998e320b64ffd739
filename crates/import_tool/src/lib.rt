//! The command that imports the new objects of a file.
//!
//! A file has ids of its own for what no server knows yet. An import takes those objects, gives each the next number
//! of the table, and replaces the file's ids in all that refer to them, so that the order of the file plays no part but
//! for the numbers. What that means to the letter is `import` in `specs/Import` of `tool_api`; the command is proved to
//! plan just that, at the cost of the objects and their references, each with a few hashed look-ups.
//!
//! `counted` takes the new objects out of those of a file, `new_keys` has what each is called, `reference_checks` the
//! tests, `import` the draft and the command. `law` says of every file that its new objects can be imported, and of
//! every object and every other key what they have after an import.
#![tactic(auto)]

mod counted;
mod import;
mod law;
mod new_keys;
mod reference_checks;

pub use counted::new_objects;
pub use import::ImportTool;
pub use law::{imported_by_place, what_is_read_can_be_imported};
