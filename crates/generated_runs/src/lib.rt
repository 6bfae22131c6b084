//! What a legal run of a script fixes, whatever host made it, where nothing refuses the script's commands. It has nothing
//! but laws.
#![tactic(auto)]

mod laws;

pub use laws::{
    all_are_answered, generated_images_are_fixed, generated_summaries_are_fixed,
    histories_are_short, images_are_fixed, splits_fill_histories,
};
