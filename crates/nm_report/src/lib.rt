//! Reports: what a run's processors were given and how it ended, as text.
#![tactic(auto)]

pub mod follows;
pub mod line_result;
mod printing;
pub mod report;
pub mod roles;
mod totals;

pub use follows::follows_fits;
pub use line_result::LineResult;
pub use nm_core::{EndWords, Role};
pub use printing::{print, print_cpu, print_told};
pub use report::Report;
pub use roles::{counts_filters, counts_sum};
pub use totals::summary;
