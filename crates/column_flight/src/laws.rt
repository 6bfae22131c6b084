ghost use Rattle.std.specs.Prelude.{◌≡◌, ◌≤◌, ◌++◌, ◌∷◌, [], ◌⊎◌, ◌↔◌, ℕ, List, None, count_by, false, length, true};
ghost use Rattle.std.specs.List.{IsDistinct, list_any};
ghost use mathlib.Core.List.{IsPrefix};
ghost use Rattle.linear_algebra.specs.Prime.{IsPrime};
ghost use Rattle.quotient_coords.specs.Quotient.{Ground};
ghost use Rattle.hecke_columns.specs.Hecke.{HeckeColumn, IsHeckeColumn};
ghost use Rattle.column_flight.specs.declared.event.FlightEvent.{FlightEvent};
ghost use Rattle.column_flight.specs.declared.event.FlightKey.{FlightKey};
ghost use Rattle.column_flight.specs.declared.look.Look.{Look};
ghost use Rattle.column_flight.specs.Flights.{IsAllowed, IsColumnAt, IsLegalFlights, at_key, claimer, free, held_keys, is_publication, is_published, publications, published, published_keys, same_key, standing};
ghost use Rattle.column_flight.specs.Looks.{IsAnswer, claims};

/// In a legal list of flights each key is published at most once, a published key has no claimer and
/// stays published as the list grows, and the keys that are held are those that are not free, each once.
pub fn each_column_is_published_once()
    ensures once { (events : List FlightEvent) (key : FlightKey) → IsLegalFlights events →
        count_by (at_key is_publication key) events ≤ 1 }
    ensures settled { (events : List FlightEvent) (key : FlightKey) → IsLegalFlights events →
        is_published events key ≡ true → claimer events key ≡ None }
    ensures stays { (events more : List FlightEvent) (key : FlightKey) →
        is_published events key ≡ true → standing (events ++ more) key ≡ published }
    ensures kept { (old new : List FlightEvent) (key : FlightKey) → IsPrefix old new →
        is_published old key ≡ true → is_published new key ≡ true }
    ensures held { (events : List FlightEvent) (key : FlightKey) → IsLegalFlights events →
        (list_any (same_key key) (held_keys events) ≡ false) ↔ (standing events key ≡ free) }
    ensures held_once { (events : List FlightEvent) → IsLegalFlights events →
        IsDistinct same_key (held_keys events) }
    ensures next { (events : List FlightEvent) (e : FlightEvent) → IsLegalFlights events →
        IsAllowed events e → IsLegalFlights (events ++ e ∷ []) }
{}

/// The number of publications is that of the keys that are published, which stand once each among the
/// keys of the publications.
pub fn publications_are_counted()
    ensures count { (events : List FlightEvent) →
        publications events ≡ length (published_keys events) }
    ensures members { (events : List FlightEvent) (key : FlightKey) →
        is_published events key ≡ list_any (same_key key) (published_keys events) }
    ensures distinct { (events : List FlightEvent) → IsLegalFlights events →
        IsDistinct same_key (published_keys events) }
{}

/// A look appends nothing, or a claim of its session on its key.
pub fn a_look_claims_at_most_its_key()
    ensures { (setting : Ground) (key : FlightKey) (by : ℕ) (look : Look) →
        IsAnswer setting key by look →
        (claims look ≡ []) ⊎ (claims look ≡ FlightEvent.Claim key by ∷ []) }
{}

/// All columns of a key are one, so each reader of a key has the same.
pub fn readers_have_one_column()
    ensures { (setting : Ground) (key : FlightKey) (c d : HeckeColumn) →
        IsPrime setting.characteristic → IsColumnAt setting key c → IsColumnAt setting key d →
        IsHeckeColumn c → IsHeckeColumn d → c ≡ d }
{}
