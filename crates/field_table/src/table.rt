ghost use Rattle.std.specs.Prelude.{◌↔◌, IsTrue};
ghost use Rattle.field_table.specs.Table.{IsListed};

/// The characteristics of the fields, rising. Each is a prime below 2^24.
pub const CHARACTERISTICS: [u32; 14] = [
    2, 3, 5, 7, 11, 13, 17, 101, 1009, 10007, 32003, 65521, 1000003, 16777213,
];

/// Every characteristic is below this, and so are those that later tables may have.
pub const CHARACTERISTIC_LIMIT: u32 = 1 << 24;

/// Whether p is a number of the table.
pub fn is_listed(p: u32) -> bool
    ensures { IsTrue result ↔ IsListed p }
{
    CHARACTERISTICS.contains(&p)
}
