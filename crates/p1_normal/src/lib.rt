//! Points (u:v) of the projective line modulo N, for a level N: their normal forms, their numbers in
//! the list of symbols, and what integer matrices do to them. Each answer after `Level::open` takes a
//! few look-ups.
#![tactic(auto)]

mod divisor;
mod image;
mod laws;
mod level;
mod matrix;
mod point;
mod sharing;
mod tables;

pub use divisor::gcd;
pub use laws::{
    action_laws, limits, normal_form_laws, number_laws, order_laws, point_laws, small_levels,
    symbol_laws, unit_laws,
};
pub use level::{Level, LevelFault, MAX_LEVEL};
pub use matrix::{MAX_DET, MAX_ENTRY, Matrix};
pub use point::{NotASymbol, Point};
