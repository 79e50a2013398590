// The rules that two maps and two item lists keep, settled labels, and views.
#![tactic(auto)]

mod certification;
mod fault;
mod item;
mod joined;
mod map;
mod rule;
mod trip;
mod views;

pub use certification::Agreement;
pub use fault::{Broken, Fault};
pub use item::{Item, Role, UnknownRole, role_number};
pub use joined::Joined;
pub use map::LabelMap;
pub use trip::RoundTrip;
pub use views::{View, items_up_to};
