ghost use Rattle.std.specs.Prelude.{◌≡◌, ◌<◌, IfOk, length};
ghost use Rattle.linear_algebra.specs.Dense.{dense};
ghost use Rattle.linear_algebra.specs.Sparse.{sparse};
ghost use Rattle.linear_algebra.specs.Vector.{◌⊞◌};
ghost use Rattle.field_table.specs.Residues.{AreResidues, HasResidues};
ghost use Rattle.field_table.specs.Terms.{HasPlacesBelow};
ghost use Rattle.p1_normal.specs.Points.{symbols};
ghost use Rattle.cusps_boundary.specs.Boundary.{boundary};
ghost use Rattle.cusps_boundary.specs.Cusps.{cusps};

use crate::walk::{opposites, walked};
use field_table::{Combo, Field, OutOfMemory, Residues};
use p1_normal::Level;
use std::alloc::Global;
use std::marker::Model;

/// The cusps of a level N, numbered by their least symbols, and the cusps that each symbol goes
/// from and to: 2 m numbers of four bytes, and one for each cusp. Contracts see N.
#[derive(Debug, Drop)]
pub struct Cusps {
    n: u32,
    least: Vec<u32>,
    numbers: Vec<u32>,
    opposites: Vec<u32>,
}

impl Model for Cusps {
    ghost use Rattle.std.specs.Prelude.{ℕ};
    ghost use Rattle.cusps_boundary.specs.Tables.{AreCusps};

    ghost Value = { ℕ };

    ghost view = { λ c. c.n };

    ghost invariant = { λ c. AreCusps c.n c.least.items c.numbers.items c.opposites.items };
}

impl Cusps {
    ghost use Rattle.std.specs.Prelude.{◌≡◌, ◌<◌, IfOk, length};
    ghost use Rattle.linear_algebra.specs.Dense.{dense};
    ghost use Rattle.linear_algebra.specs.Sparse.{sparse};
    ghost use Rattle.field_table.specs.Residues.{AreResidues, HasResidues};
    ghost use Rattle.field_table.specs.Terms.{HasPlacesBelow};
    ghost use Rattle.p1_normal.specs.Actions.{matrix_s, image_number};
    ghost use Rattle.p1_normal.specs.Points.{symbols};
    ghost use Rattle.cusps_boundary.specs.Boundary.{boundary};
    ghost use Rattle.cusps_boundary.specs.Cusps.{cusp_number, cusps, least_symbol};

    /// The cusps of the level. Goes once through each cusp, by two actions on each symbol.
    pub fn build(alloc: Global, level: &Level) -> Result<Cusps, OutOfMemory>
        ensures level { IfOk result (λ c. c ≡ level.now) }
    {
        let (least, numbers) = walked(alloc, level)?;
        let opposites = opposites(alloc, level, &numbers)?;
        Ok(Cusps {
            n: level.modulus(),
            least,
            numbers,
            opposites,
        })
    }

    /// The number of cusps: the sum over the divisors g of N of Euler's function at the greatest
    /// common divisor of g and N/g.
    pub fn count(&self) -> u32
        ensures count { result ≡ length (cusps self.now) }
    {
        self.least.len() as u32
    }

    /// The number of the cusp of symbol k.
    pub fn of(&self, k: u32) -> u32
        requires place { k < length (symbols self.now) }
        ensures number { result ≡ cusp_number self.now k }
        ensures below { result < length (cusps self.now) }
    {
        self.numbers[k as usize]
    }

    // The number of the cusp of symbol k times S.
    fn opposite(&self, k: u32) -> u32
        requires place { k < length (symbols self.now) }
        ensures number { result ≡ cusp_number self.now (image_number self.now k matrix_s) }
        ensures below { result < length (cusps self.now) }
    {
        self.opposites[k as usize]
    }

    /// The least symbol of cusp c.
    pub fn least(&self, c: u32) -> u32
        requires place { c < length (cusps self.now) }
        ensures symbol { result ≡ least_symbol self.now c }
        ensures below { result < length (symbols self.now) }
    {
        self.least[c as usize]
    }

    /// The boundary of a combination: for each of its symbols x its residue there at the cusp of x,
    /// and minus this residue at the cusp of x S. Gives a residue for each cusp; costs four
    /// look-ups a term. Congruent combinations have one boundary, which
    /// `boundaries_of_relations_are_zero` states.
    pub fn boundary(
        &self,
        alloc: Global,
        field: Field,
        combo: &Combo,
    ) -> Result<Residues, OutOfMemory>
        requires places { HasPlacesBelow (length (symbols self.now)) combo.now }
        requires residues { HasResidues field combo.now }
        ensures vector { IfOk result (λ b.
            dense field b ≡ boundary self.now (sparse field combo.now)) }
        ensures count { IfOk result (λ b. length b ≡ length (cusps self.now)) }
        ensures residues { IfOk result (λ b. AreResidues field b) }
    {
        let mut sums = vec![in alloc; 0; self.least.len()]?;
        add_boundary(self, field, combo.terms(), &mut sums);
        Ok(Residues::of(sums))
    }
}

// Adds the boundary of the terms.
fn add_boundary(table: &Cusps, field: Field, terms: &[(u32, u32)], sums: &mut [u32])
    requires places { HasPlacesBelow (length (symbols table.now)) terms.now }
    requires residues { HasResidues field terms.now }
    requires count { length sums.old ≡ length (cusps table.now) }
    requires sums { AreResidues field sums.old }
    ensures sum { dense field sums.new
        ≡ dense field sums.old ⊞ boundary table.now (sparse field terms.now) }
    ensures residues { AreResidues field sums.new }
{
    for term in terms {
        let from = table.of(term.0) as usize;
        sums[from] = field.add(sums[from], term.1);
        let to = table.opposite(term.0) as usize;
        sums[to] = field.sub(sums[to], term.1);
    }
}
