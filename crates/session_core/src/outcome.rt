use field_table::Residues;
use op_polynomials::{OpName, Poly};
use reply_text::Reply;
use split_state::Splitting;

/// What a prepared command comes to.
#[derive(Drop)]
pub enum Finish {
    /// The reply: a refusal, the answer, or want of memory.
    Reply(Reply),
    /// An accepted split by a polynomial in an operator: the next splitting, and the dimensions of its parts in order, so
    /// that its reply takes no more memory.
    Split {
        op: OpName,
        poly: Poly,
        next: Splitting,
        dims: Residues,
    },
}
