//! Tests of elimination, coordinates and the star; and tests that cross crates: the space of level 11 from its
//! relations to the coordinates of each symbol, in every characteristic; the numbers of symbols and the dimensions
//! against the genus and the elliptic points; certificates, right and wrong ones; and elimination of drawn rows against
//! a plain one. It has nothing but tests.
#![tactic(auto)]

#[cfg(test)]
mod certificates;
#[cfg(test)]
mod coordinates;
#[cfg(test)]
mod dimensions;
#[cfg(test)]
mod drawn_rows;
#[cfg(test)]
mod echelons;
#[cfg(test)]
mod eliminations;
#[cfg(test)]
mod formulas;
#[cfg(test)]
mod level_eleven;
#[cfg(test)]
mod plain_elimination;
#[cfg(test)]
mod ranges;
#[cfg(test)]
mod spaces;
#[cfg(test)]
mod stars;
