// A set of matrices is shared between threads, and may be sent to one. Shown here, and never called.
use crate::matrix_set::MatrixSet;

fn is_shared_and_sent<T: Send + Sync>(_it: &T) {}

fn set_crosses(set: &MatrixSet) {
    is_shared_and_sent(set);
}
