//! The identities that an agent holds, in order of their first addition, and the lock of the agent.
//!
//! Stands on `key_blob` and `constraint_rec` for what is added, and on `secret_buf` for private bytes;
//! follows OpenSSH's ssh-agent.
#![tactic(auto)]

mod deadline;
mod fault;
mod identity;
mod laws;
mod lock;
mod records;
mod room;
mod rows;
mod table;

pub use fault::AddFault;
pub use identity::Identity;
pub use laws::{
    addition_numbers_never_begin_again, an_identity_is_used_up, blob_and_number_find_the_same,
    tables_stay_sound, what_is_held_is_short, what_is_held_takes_at_most_8_mib,
};
pub use lock::Lock;
pub use rows::{a_hop_is_counted_to_the_byte, a_table_has_room_for_8_mib};
pub use table::Table;
