use crate::lists::{History, Sessions};
use crate::reply::Reply;

/// A reply, with the number of its command in the session, from 1, and the version at which it stands.
#[derive(Debug, Drop)]
pub struct ReplyLine {
    pub number: u32,
    pub version: u32,
    pub reply: Reply,
}

/// A transcript: the level, the characteristic and the number of symbols, the replies of each session, the
/// history of accepted splits and the number of Hecke columns.
#[derive(Debug, Drop)]
pub struct Transcript {
    pub modulus: u32,
    pub characteristic: u32,
    pub symbols: u32,
    pub sessions: Sessions,
    pub history: History,
    pub columns: u64,
}
