// What the lineage table becomes when a run commits.
#![tactic(auto)]

mod commits;

pub use commits::commit;
