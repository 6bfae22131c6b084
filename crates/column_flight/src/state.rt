ghost use Rattle.std.specs.Prelude.{◌≡◌, ◌≢◌, ◌++◌, [], ◌∷◌, IfOk, OnErr, Some, length};
ghost use Rattle.std.specs.Arc.{arc_value};
ghost use Rattle.column_flight.specs.Flights.{claimer, standing, publications, IsColumnAt, IsLegalFlights};
ghost use Rattle.column_flight.specs.Looks.{found, claims, IsAnswer};

use crate::event::{FlightEvent, FlightKey};
use crate::look::{Look, Ticket};
use crate::places::{Place, Places, claim_room, put_claim, put_column, take_out};
use field_table::OutOfMemory;
use hecke_columns::Column;
use indexmap::IndexMap;
use quotient_coords::Space;
use std::alloc::Global;
use std::marker::Model;
use std::sync::Arc;
use turn_board::Kept;

/// The claims, publications and abandonments of columns at a level and a characteristic, and the columns
/// that were published. Contracts see the events, and the level and the characteristic. Its type keeps
/// that the events are legal, and room for the settlement of each unsettled claim.
#[derive(Drop)]
pub struct FlightState {
    modulus: u32,
    characteristic: u32,
    events: Vec<FlightEvent>,
    published: u64,
    places: Places,
}

impl Model for FlightState {
    ghost use Rattle.column_flight.specs.Flights.{FlightHistory};

    ghost Value = { FlightHistory };

    ghost use Rattle.std.specs.Prelude.{vec_capacity};
    ghost use Rattle.quotient_coords.specs.Quotient.{ground_of};
    ghost use Rattle.column_flight.specs.Places.{AreFlights};

    ghost view = { λ s. record {
      events = s.events.items;
      setting = ground_of s.modulus s.characteristic;
    } };

    ghost invariant = { λ s. AreFlights s.modulus s.characteristic s.events.items
        (vec_capacity s.events) s.published s.places.entries };
}

impl FlightState {
    /// The state of no event, for the columns of the space.
    pub fn new(alloc: Global, space: &Space) -> FlightState
        ensures { result ≡ record { events = []; setting = space.now } }
    {
        FlightState {
            modulus: space.level().modulus(),
            characteristic: space.field().characteristic(),
            events: Vec::new(alloc),
            published: 0,
            places: IndexMap::new(alloc),
        }
    }

    /// The events, the first one first.
    pub fn events(&self) -> &[FlightEvent]
        ensures events { result.now ≡ self.now.events }
        ensures legal { IsLegalFlights self.now.events }
    {
        self.events.as_slice()
    }

    // The events are legal.
    pub(crate) fn is_legal(&self)
        ensures { IsLegalFlights self.now.events }
    {
        let _ = &self.modulus;
    }

    /// How many columns were published.
    pub fn published(&self) -> u64
        ensures { result ≡ publications self.now.events }
    {
        self.published
    }

    /// Looks at a key for a session that has no unsettled claim on it: `Ready` where it is published,
    /// `Pending` where another session's claim is unsettled, `Mine` where it is free. A free key is then
    /// claimed by the session, and there is room for the settlement of the claim. A refused call changes
    /// nothing. Costs one look-up.
    pub fn look(&mut self, by: u32, key: FlightKey) -> Result<Look, OutOfMemory>
        requires unclaimed { claimer self.old.events key ≢ Some by }
        ensures cause { IfOk result (λ look. found look ≡ standing self.old.events key) }
        ensures answer { IfOk result (IsAnswer self.old.setting key by) }
        ensures events { IfOk result (λ look. self.new.events ≡ self.old.events ++ claims look) }
        ensures setting { self.new.setting ≡ self.old.setting }
        ensures refused { OnErr result (self.new ≡ self.old) }
    {
        match self.places.get(&key) {
            Some(Place::Published(column)) => Ok(Look::Ready(column.clone()?)),
            Some(Place::Claimed { by }) => Ok(Look::Pending { key, by: *by }),
            None => {
                let unsettled = self.places.len() - self.published as usize;
                claim_room(&mut self.events, &mut self.places, unsettled)?;
                self.events.push_reserved(FlightEvent::Claim { key, by });
                put_claim(&mut self.places, key, by);
                Ok(Look::Mine(Ticket { key, by }))
            }
        }
    }

    /// Publishes the column of a claim. Takes no memory.
    pub fn publish(&mut self, ticket: Ticket, column: Arc<Column>)
        requires ticket { claimer self.old.events ticket.key ≡ Some ticket.by }
        requires column { IsColumnAt self.old.setting ticket.key (arc_value column) }
        ensures events { self.new.events
            ≡ self.old.events ++ FlightEvent.Publish ticket.key ticket.by ∷ [] }
        ensures setting { self.new.setting ≡ self.old.setting }
    {
        let Ticket { key, by } = ticket;
        self.events.push_reserved(FlightEvent::Publish { key, by });
        put_column(&mut self.places, key, column);
        self.published += 1;
    }

    /// Gives a claim up. Takes no memory. Costs a pass over the keys that were claimed after it.
    pub fn abandon(&mut self, ticket: Ticket)
        requires ticket { claimer self.old.events ticket.key ≡ Some ticket.by }
        ensures events { self.new.events
            ≡ self.old.events ++ FlightEvent.Abandon ticket.key ticket.by ∷ [] }
        ensures setting { self.new.setting ≡ self.old.setting }
    {
        let Ticket { key, by } = ticket;
        self.events.push_reserved(FlightEvent::Abandon { key, by });
        take_out(&mut self.places, key);
    }
}

impl Kept for FlightState {
    type Entry = FlightEvent;

    ghost use Rattle.column_flight.specs.Flights.{maker_of};

    ghost entries = { λ _ s. s.events };

    ghost maker = { maker_of };

    ghost label = { λ s. s.setting.level ∷ s.setting.characteristic ∷ [] };

    fn length(&self) -> u64 {
        self.events.len() as u64
    }
}
