//! The engine: scripts run over files, with tables that lie on pages and spill to lanes.
#![tactic(auto)]

mod run;

pub use run::run_script;
