//! Tests of what threads share: the board and its turns, flights of columns, versions of a splitting, and the core
//! that they are tied to. It has nothing but tests.
#![tactic(auto)]

#[cfg(test)]
mod boards;
#[cfg(test)]
mod cores;
#[cfg(test)]
mod flights;
#[cfg(test)]
mod spaces;
#[cfg(test)]
mod versions;
