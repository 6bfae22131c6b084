//! Hecke sums over lists of matrices, one column of coordinates for each symbol, and sources that add such
//! columns.
#![tactic(auto)]

mod chains;
mod column;
mod gathered;
mod laws;
mod local;
mod sharing;
mod source;
mod steps;
mod sum;
mod turns;
mod walk;
mod walks;
mod ways;

pub use column::Column;
pub use gathered::GatheredColumns;
pub use laws::{columns_add_up, sums_are_linear};
pub use local::LocalColumns;
pub use source::ColumnSource;
pub use steps::Steps;
pub use sum::column_of;
pub use turns::Turns;
pub use walks::Walks;
pub use ways::Walk;
