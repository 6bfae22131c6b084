//! Dense matrices and subspaces over a prime field: products, images and null spaces, each subspace
//! by its one reduced echelon basis. It knows nothing of where the matrices come from.
#![tactic(auto)]

mod accumulation;
mod addition;
mod basis;
mod constants;
mod copies;
mod elimination;
mod image;
mod laws;
mod mat;
mod multiplication;
mod null_space;
mod trace;

pub use basis::{Basis, independent, span_of, whole_space};
pub use image::image_on;
pub use laws::{bases_are_unique, identity_leaves};
pub use mat::Mat;
pub use null_space::{kernel_by_images, kernel_on};
