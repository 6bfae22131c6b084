// The boards of a space are shared between threads, and a work is sent to one: shown here, and never called.
use crate::work::{SessionWork, SpaceBoards};

fn is_shared<T: Sync>(_it: &T) {}

fn is_sent<T: Send>(_it: &T) {}

fn boards_cross(boards: &SpaceBoards) {
    is_shared(boards);
}

fn work_crosses(work: &SessionWork) {
    is_sent(work);
}
