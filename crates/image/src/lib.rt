// The state image: where each record lies, each record loaded from the lent bytes and stored into them, and the scans
// that read many of them. No rule is here, and no number of the layout is anywhere else.
#![tactic(auto)]

mod layout; // layout.rt: every place and width, by name
mod statuses; // statuses.rt: four statuses in one number
mod entry; // entry.rt: the entries of the ring
mod classes; // classes.rt: the class of an entry, by its statuses
mod parts; // parts.rt: numbers, heads and tables of values
mod nodes; // nodes.rt: configuration, mastership, target, connections
mod formed; // formed.rt: whether an image is well-formed
mod settled; // settled.rt: whether what carries an ordinal is Done
mod applies; // applies.rt: whether an apply has completed
mod fresh; // fresh.rt: a fresh image

pub use applies::landed;
pub use classes::load_class;
pub use entry::{carries_next, grow, load_entry, store_entry};
pub use formed::well_formed;
pub use fresh::make_fresh;
pub use layout::{
    APPLIED_AT, APPLIED_VALUES_AT, BASE_AT, COMMITTED_AT, COMMITTED_VALUES_AT, HIGHEST,
    IMAGE_LENGTH, OWNERS_AT, RING, SLOTS, TARGET_VALUES_AT,
};
pub use nodes::{
    load_configuration, load_connection, load_connections, load_mastership, load_target,
    store_configuration, store_connections, store_mastership, store_target,
};
pub use parts::{
    clear_target, last_fold, last_number, load_change, load_head, load_value, store_change,
    store_fold, store_head, store_value, table_place, write_differing,
};
pub use settled::all_settled;
