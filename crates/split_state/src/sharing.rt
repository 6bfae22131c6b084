// A splitting is shared between threads, and may be sent to one. Shown here, and never called.
use crate::splitting::Splitting;

fn is_shared_and_sent<T: Send + Sync>(_it: &T) {}

fn splitting_crosses(splitting: &Splitting) {
    is_shared_and_sent(splitting);
}
