/// A coefficient and a pair (u, v), which names the symbol (u:v) where it names one.
#[derive(Clone, Copy, Debug, PartialEq, Eq)]
pub struct Term {
    pub coefficient: i64,
    pub u: i64,
    pub v: i64,
}
