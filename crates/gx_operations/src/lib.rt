//! What the requests do: texts are checked, a database is made on a device, a script is played or
//! explained, a device is inspected, the workload is played. Each says how it ends.
#![tactic(auto)]

mod checking;
mod damage;
mod examine;
mod explaining;
mod inspecting;
mod kinds;
mod making;
mod refusing;
mod running;
mod trying;
mod working;

pub use checking::check;
pub use explaining::explain;
pub use inspecting::inspect;
pub use kinds::ScriptKind;
pub use making::make;
pub use refusing::refuse;
pub use running::run;
pub use trying::try_script;
pub use working::work;
