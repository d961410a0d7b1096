//! What a writing call is answered: its entry, or the first refusal that holds.
#![tactic(auto)]

mod calls;
mod kinds;
mod refusals;
mod restores;

pub use calls::judge;
pub use kinds::{refused_create, refused_delete, refused_link, refused_unlink, refused_update};
pub use refusals::starts_job;
