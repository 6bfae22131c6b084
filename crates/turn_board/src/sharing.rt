// A board is shared between threads and a pass is sent to one. Shown here, and never called.
use crate::board::Board;
use crate::kept::Kept;
use crate::pass::Pass;

fn is_shared_and_sent<T: Send + Sync>(_it: &T) {}

fn is_sent<T: Send>(_it: &T) {}

// For every state that may be sent.
fn board_crosses<S: Kept + Send>(board: &Board<S>) {
    is_shared_and_sent(board);
}

fn pass_crosses<S: Kept + Send>(pass: &Pass<S>) {
    is_sent(pass);
}
