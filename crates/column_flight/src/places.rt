ghost use Rattle.std.specs.Prelude.{◌≡◌, ◌<◌, ◌≤◌, ◌+◌, ◌^◌, ◌++◌, ◌∷◌, [], Some, None, OnOk, OnErr, IsSome, vec_len, vec_capacity};
ghost use Rattle.indexmap.specs.IndexMap.{get, keys, spare, IsUnique};
ghost use Rattle.std.specs.Map.{remove_entry, set_value};
ghost use Rattle.column_flight.specs.Flights.{same_key};

use crate::event::{FlightEvent, FlightKey};
use field_table::OutOfMemory;
use hecke_columns::Column;
use indexmap::IndexMap;
use std::sync::Arc;

/// What stands at a key that is not free.
#[derive(Debug, Drop)]
pub(crate) enum Place {
    Claimed { by: u32 },
    Published(Arc<Column>),
}

pub(crate) type Places = IndexMap<FlightKey, Place>;

// Makes room for one more claim and its settlement, where so many claims are unsettled.
pub(crate) fn claim_room(
    events: &mut Vec<FlightEvent>,
    places: &mut Places,
    unsettled: usize,
) -> Result<(), OutOfMemory>
    requires few { unsettled < 2 ^ 62 }
    ensures events { events.new.items ≡ events.old.items }
    ensures places { places.new.entries ≡ places.old.entries }
    ensures capacity { vec_capacity events.old ≤ vec_capacity events.new }
    ensures events_room { OnOk result
        (vec_len events.old + (unsettled + 2) ≤ vec_capacity events.new) }
    ensures places_room { OnOk result (0 < spare places.new) }
{
    events.reserve(unsettled + 2)?;
    places.reserve(1)?;
    Ok(())
}

// A claim at a key that has no place.
pub(crate) fn put_claim(places: &mut Places, key: FlightKey, by: u32)
    requires room { 0 < spare places.old }
    requires absent { get same_key places.old key ≡ None }
    ensures entries { places.new.entries
        ≡ places.old.entries ++ (key, Place.Claimed by) ∷ [] }
    ensures unique { IsUnique same_key places.new }
{
    let Ok(_) = places.insert(key, Place::Claimed { by }) else {
        unreachable!()
    };
}

// The column in the place of a key.
pub(crate) fn put_column(places: &mut Places, key: FlightKey, column: Arc<Column>)
    requires there { IsSome (get same_key places.old key) }
    ensures entries { places.new.entries
        ≡ set_value (same_key key) places.old.entries (Place.Published column) }
    ensures unique { IsUnique same_key places.new }
{
    match places.get_mut(&key) {
        Some(place) => *place = Place::Published(column),
        None => unreachable!(),
    }
}

// Takes the place of a key out. The others keep their order.
pub(crate) fn take_out(places: &mut Places, key: FlightKey)
    ensures entries { places.new.entries ≡ remove_entry (same_key key) places.old.entries }
    ensures unique { IsUnique same_key places.new }
{
    let _ = places.shift_remove(&key);
}
