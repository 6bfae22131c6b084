// A level is shared between threads, and may be sent to one. Shown here, and never called.
use crate::level::Level;

fn is_shared_and_sent<T: Send + Sync>(_it: &T) {}

fn level_crosses(level: &Level) {
    is_shared_and_sent(level);
}
