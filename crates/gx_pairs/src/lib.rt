//! Records that links connect: members and their owners.
#![tactic(auto)]

mod changes;
mod kept;
mod members;
mod owners;
mod refused;
mod stored;

pub use changes::{connect_pair, disconnect_pair};
pub use kept::keep_members;
pub use members::{add_member_at, add_members, has_members};
pub use owners::{Owned, find_owner, has_owner};
pub use refused::Refused;
pub use stored::{StoredFile, StoredLink};
