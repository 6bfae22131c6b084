// What workers share of columns may be sent to threads and shared between them. Shown here, and never called.
use crate::column::Column;
use crate::gathered::GatheredColumns;
use crate::steps::Steps;
use crate::turns::Turns;
use crate::walks::Walks;
use crate::ways::Walk;

fn is_shared_and_sent<T: Send + Sync>(_it: &T) {}

fn columns_cross(column: &Column, gathered: &GatheredColumns) {
    is_shared_and_sent(column);
    is_shared_and_sent(gathered);
}

fn walks_cross(walks: &Walks, turns: &Turns, steps: &Steps) {
    is_shared_and_sent(walks);
    is_shared_and_sent(turns);
    is_shared_and_sent(steps);
}

fn walk_crosses(walk: &Walk<'_>) {
    is_shared_and_sent(walk);
}
