ghost use Rattle.std.specs.Prelude.{◌≡◌, ◌<◌, ◌≤◌, ◌+◌, ◌++◌, ◌∷◌, [], ◌↔◌, IfOk, IsOk, IsErrOf, OnErr, OnOk, length, take};
ghost use Rattle.std.specs.Arc.{arc_value};
ghost use Rattle.split_state.specs.Decomposition.{IsSplitting};
ghost use Rattle.split_state.specs.Versions.{IsVersion};
ghost use Rattle.split_versions.specs.Histories.{AreVersions, commit_answer};

use crate::fault::CommitFault;
use field_table::OutOfMemory;
use op_polynomials::SplitEntry;
use quotient_coords::Space;
use reply_text::MAX_VERSIONS;
use split_state::Splitting;
use std::alloc::Global;
use std::marker::Model;
use std::sync::Arc;
use turn_board::Kept;

/// The accepted splits of a space, and the newest splitting. Contracts see the entries, and the level and the
/// characteristic. Its type keeps that the newest splitting is the version of the entries, that the version of the
/// first ones is a splitting wherever they end, and room for `MAX_VERSIONS` entries.
#[derive(Drop)]
pub struct VersionState {
    modulus: u32,
    characteristic: u32,
    entries: Vec<SplitEntry>,
    newest: Arc<Splitting>,
}

impl Model for VersionState {
    ghost use Rattle.split_versions.specs.Histories.{VersionHistory};

    ghost Value = { VersionHistory };

    ghost use Rattle.std.specs.Prelude.{vec_capacity};
    ghost use Rattle.std.specs.Arc.{arc_value};
    ghost use Rattle.split_versions.specs.Histories.{IsHistory};

    ghost view = { λ s. record {
      entries = s.entries.items;
      setting = record { level = s.modulus; characteristic = s.characteristic };
    } };

    ghost invariant = { λ s. IsHistory s.modulus s.characteristic s.entries.items
        (vec_capacity s.entries) (arc_value s.newest) };
}

// What the type of a splitting keeps.
fn is_splitting(splitting: &Splitting)
    ensures { IsSplitting splitting.now }
{
    let _ = splitting.parts();
}

impl VersionState {
    /// The history of no entry of the space, with room for all.
    pub fn new(alloc: Global, space: &Space) -> Result<VersionState, OutOfMemory>
        ensures { IfOk result (λ s. s ≡ record { entries = []; setting = space.now }) }
    {
        let entries = Vec::with_capacity(alloc, MAX_VERSIONS as usize)?;
        let newest = Arc::new(alloc, Splitting::whole(alloc, space.field(), space.dim())?)?;
        Ok(VersionState {
            modulus: space.level().modulus(),
            characteristic: space.field().characteristic(),
            entries,
            newest,
        })
    }

    /// The accepted splits, the first one first.
    pub fn entries(&self) -> &[SplitEntry]
        ensures entries { result.now ≡ self.now.entries }
        ensures few { length self.now.entries ≤ MAX_VERSIONS }
        ensures versions { AreVersions self.now.setting self.now.entries }
    {
        self.entries.as_slice()
    }

    /// The version of all entries.
    pub fn newest(&self) -> &Arc<Splitting>
        ensures { IsVersion self.now.setting self.now.entries (arc_value result.now) }
    {
        &self.newest
    }

    // The number of entries, and the version of them.
    pub(crate) fn current(&self) -> Result<(u32, Arc<Splitting>), OutOfMemory>
        ensures count { IfOk result (λ current. current.0 ≡ length self.now.entries) }
        ensures few { IfOk result (λ current. current.0 ≤ MAX_VERSIONS) }
        ensures newest { IfOk result (λ current.
            IsVersion self.now.setting self.now.entries (arc_value current.1)) }
    {
        let newest = self.newest.clone()?;
        Ok((self.entries.len() as u32, newest))
    }

    /// Appends an entry that was tested at the version of the first `seen` entries, with the version that it makes
    /// of that one. Refuses `Stale` where entries were added since, and then `Full` where there are `MAX_VERSIONS`.
    /// A refused call changes nothing. Takes no memory.
    pub fn commit(
        &mut self,
        seen: u32,
        entry: SplitEntry,
        next: Arc<Splitting>,
    ) -> Result<u32, CommitFault>
        requires seen { seen ≤ length self.old.entries }
        requires next { IsVersion self.old.setting
            (take seen self.old.entries ++ entry ∷ []) (arc_value next) }
        ensures answer { result ≡ commit_answer seen (length self.old.entries) }
        ensures stale { IsErrOf result (CommitFault.Stale (length self.old.entries))
            ↔ (seen < length self.old.entries) }
        ensures full { IsErrOf result CommitFault.Full
            ↔ ((seen ≡ length self.old.entries) × (length self.old.entries ≡ MAX_VERSIONS)) }
        ensures committed { IsOk result
            ↔ ((seen ≡ length self.old.entries) × (length self.old.entries < MAX_VERSIONS)) }
        ensures count { IfOk result (λ count. count ≡ length self.old.entries + 1) }
        ensures entries { OnOk result (self.new.entries ≡ self.old.entries ++ entry ∷ []) }
        ensures setting { self.new.setting ≡ self.old.setting }
        ensures refused { OnErr result (self.new ≡ self.old) }
    {
        let count = self.entries.len() as u32;
        if seen < count {
            return Err(CommitFault::Stale { count });
        }
        if count == MAX_VERSIONS {
            return Err(CommitFault::Full);
        }
        is_splitting(&next);
        self.entries.push_reserved(entry);
        self.newest = next;
        Ok(count + 1)
    }
}

impl Kept for VersionState {
    type Entry = SplitEntry;

    ghost use Rattle.split_versions.specs.Histories.{maker_of};

    ghost entries = { λ _ s. s.entries };

    ghost maker = { maker_of };

    ghost label = { λ s. s.setting.level ∷ s.setting.characteristic ∷ [] };

    fn length(&self) -> u64 {
        self.entries.len() as u64
    }
}
