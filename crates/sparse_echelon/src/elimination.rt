ghost use Rattle.std.specs.Prelude.{◌≡◌, ◌<◌, ◌+◌, ◌-◌, ◌^◌, ℕ, [], All, IfOk, OnOk, length, slice_index_or};
ghost use Rattle.field_table.specs.Residues.{HasResidues};
ghost use Rattle.field_table.specs.Terms.{HasPlacesBelow};
ghost use Rattle.linear_algebra.specs.Coordinates.{unit};
ghost use Rattle.linear_algebra.specs.Echelon.{remainder};
ghost use Rattle.linear_algebra.specs.Residue.{residue};
ghost use Rattle.linear_algebra.specs.Sparse.{IsCombo, sparse, sparse_rows};
ghost use Rattle.linear_algebra.specs.Vector.{◌⊡◌, combination, minus};
ghost use Rattle.sparse_echelon.specs.Leads.{at_leads, lead};
ghost use Rattle.sparse_echelon.specs.Occurrences.{AreOccurrences};
ghost use Rattle.sparse_echelon.specs.Repeats.{AreBefore};
ghost use Rattle.sparse_echelon.specs.Stored.{Stores};
ghost use Rattle.sparse_echelon.specs.System.{system};

use crate::occurrences::{add_row, no_rows};
use crate::repeats::{is_repeated, remember};
use crate::row_numbers::RowNumbers;
use crate::selection::plus_selected;
use crate::stored::Stored;
use field_table::{Combo, Field, OutOfMemory, PlaceTable, product};
use std::alloc::Global;
use std::mem;

// The coefficients of a new row of the basis: of what the row of these terms, with this number, leaves, times the factor.
fn log_of(
    alloc: Global,
    field: Field,
    factor: u32,
    leads: &PlaceTable,
    logs: &[Combo],
    terms: &[(u32, u32)],
    number: u32,
) -> Result<Combo, OutOfMemory>
    requires factor { factor < field }
    requires logs { All (HasResidues field) logs.now }
    requires many { length leads.now.places ≡ length logs.now }
    requires residues { HasResidues field terms.now }
    ensures log { IfOk result (λ z. sparse field z ≡ residue field factor
        ⊡ minus (unit number) (combination (at_leads leads.now (sparse field terms.now)) (sparse_rows field logs.now))) }
    ensures residues { IfOk result (λ z. HasResidues field z) }
    ensures rows { IfOk result (λ z. (n : ℕ) → number < n → All (HasPlacesBelow n) logs.now → HasPlacesBelow n z) }
{
    let log = plus_selected(
        alloc,
        field,
        &[(number, 1)],
        field.neg(1),
        leads,
        logs,
        terms,
    )?;
    product(alloc, field, factor, log.terms())
}

// Keeps row n, which leaves these terms.
fn keep(
    alloc: Global,
    field: Field,
    stored: &mut Stored,
    occurrences: &mut [RowNumbers],
    rows: &[Combo],
    n: usize,
    left: &[(u32, u32)],
) -> Result<(), OutOfMemory>
    requires number { n < length rows.now }
    requires count { length rows.now < u32.MAX }
    requires row_residues { All (HasResidues field) rows.now }
    requires stored { Stores (system field (length occurrences.old) rows.now) n stored.old }
    requires occurrences { AreOccurrences field stored.old.basis.items stored.old.leads occurrences.old }
    requires left { sparse field left.now ≡ remainder (sparse_rows field stored.old.basis.items)
        (lead stored.old.leads) (sparse field (slice_index_or rows.now n [])) }
    requires combo { IsCombo left.now }
    requires residues { HasResidues field left.now }
    requires places { HasPlacesBelow (length occurrences.old) left.now }
    requires some { 0 < length left.now }
    ensures stored { OnOk result (Stores (system field (length occurrences.old) rows.now) (n + 1) stored.new) }
    ensures occurrences { OnOk result (AreOccurrences field stored.new.basis.items stored.new.leads occurrences.new) }
{
    let number = n as u32;
    let (place, last) = left[left.len() - 1];
    let inverse = field.inverse(last).unwrap();
    let row = product(alloc, field, inverse, left)?;
    let log = log_of(
        alloc,
        field,
        inverse,
        &stored.leads,
        &stored.logs,
        rows[n].terms(),
        number,
    )?;
    let numbers = mem::replace(&mut occurrences[place as usize], RowNumbers::none(alloc));
    stored.clear(
        alloc,
        field,
        numbers.as_slice(),
        place,
        &row,
        &log,
        occurrences,
    )?;
    add_row(occurrences, row.terms(), stored.basis.len() as u32)?;
    stored.push(row, log, place, number)?;
    Ok(())
}

// Eliminates row n after the rows before it.
fn eliminate_row(
    alloc: Global,
    field: Field,
    stored: &mut Stored,
    occurrences: &mut [RowNumbers],
    rows: &[Combo],
    n: usize,
) -> Result<(), OutOfMemory>
    requires number { n < length rows.now }
    requires count { length rows.now < u32.MAX }
    requires places { All (HasPlacesBelow (length occurrences.old)) rows.now }
    requires row_residues { All (HasResidues field) rows.now }
    requires stored { Stores (system field (length occurrences.old) rows.now) n stored.old }
    requires occurrences { AreOccurrences field stored.old.basis.items stored.old.leads occurrences.old }
    ensures stored { OnOk result (Stores (system field (length occurrences.old) rows.now) (n + 1) stored.new) }
    ensures occurrences { OnOk result (AreOccurrences field stored.new.basis.items stored.new.leads occurrences.new) }
{
    let terms = rows[n].terms();
    let left = plus_selected(
        alloc,
        field,
        terms,
        field.neg(1),
        &stored.leads,
        &stored.basis,
        terms,
    )?;
    if left.terms().is_empty() {
        return Ok(());
    }
    keep(alloc, field, stored, occurrences, rows, n, left.terms())
}

// Eliminates row n after the rows before it, but where it repeats one of these: it adds nothing then, and is not read.
fn eliminate_next(
    alloc: Global,
    field: Field,
    stored: &mut Stored,
    occurrences: &mut [RowNumbers],
    last_rows: &mut [Option<u32>],
    rows: &[Combo],
    n: usize,
) -> Result<(), OutOfMemory>
    requires number { n < length rows.now }
    requires count { length rows.now < u32.MAX }
    requires width { length last_rows.old ≡ length occurrences.old }
    requires places { All (HasPlacesBelow (length occurrences.old)) rows.now }
    requires row_residues { All (HasResidues field) rows.now }
    requires stored { Stores (system field (length occurrences.old) rows.now) n stored.old }
    requires occurrences { AreOccurrences field stored.old.basis.items stored.old.leads occurrences.old }
    requires before { AreBefore n last_rows.old }
    ensures stored { OnOk result (Stores (system field (length occurrences.old) rows.now) (n + 1) stored.new) }
    ensures occurrences { OnOk result (AreOccurrences field stored.new.basis.items stored.new.leads occurrences.new) }
    ensures before { OnOk result (AreBefore (n + 1) last_rows.new) }
{
    if is_repeated(rows, n, last_rows) {
        return Ok(());
    }
    remember(last_rows, rows[n].terms(), n as u32);
    eliminate_row(alloc, field, stored, occurrences, rows, n)
}

/// The stored form of the rows.
pub fn stored_of(
    alloc: Global,
    field: Field,
    rows: &[Combo],
    width: u32,
) -> Result<Stored, OutOfMemory>
    requires count { length rows.now < u32.MAX }
    requires places { All (HasPlacesBelow width) rows.now }
    requires residues { All (HasResidues field) rows.now }
    ensures { IfOk result (Stores (system field width rows.now) (length rows.now)) }
{
    let mut occurrences = no_rows(alloc, width as usize)?;
    let mut last_rows = vec![in alloc; None; width as usize]?;
    let mut stored = Stored {
        leads: PlaceTable::none(alloc, width)?,
        basis: Vec::new(alloc),
        logs: Vec::new(alloc),
        kept: Vec::new(alloc),
    };
    for n in 0..rows.len() {
        eliminate_next(
            alloc,
            field,
            &mut stored,
            &mut occurrences,
            &mut last_rows,
            rows,
            n,
        )?;
    }
    Ok(stored)
}
