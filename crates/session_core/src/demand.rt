use field_table::Residues;

/// The Hecke columns that a command demands, each the column of a symbol over Merel's set of determinant n.
#[derive(Debug, Drop)]
pub enum Demand {
    /// No column.
    Nothing,
    /// The columns of these symbols, by their numbers, rising without repeats.
    Some { n: u32, symbols: Residues },
    /// The columns of all symbols.
    All { n: u32 },
}
