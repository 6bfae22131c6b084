//! Tests of the texts: streams of bytes, numbers, scripts and those made from a number, and transcripts. It has
//! nothing but tests.
#![tactic(auto)]

#[cfg(test)]
mod drawn;
#[cfg(test)]
mod numbers;
#[cfg(test)]
mod replies;
#[cfg(test)]
mod scripts;
#[cfg(test)]
mod streams;
