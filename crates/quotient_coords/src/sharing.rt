// A space is shared between threads, and may be sent to one. Shown here, and never called.
use crate::space::Space;

fn is_shared_and_sent<T: Send + Sync>(_it: &T) {}

fn space_crosses(space: &Space) {
    is_shared_and_sent(space);
}
