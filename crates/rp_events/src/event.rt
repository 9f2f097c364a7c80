//! Events.

use gadget_tree::Name;
use wire_table::Which;

/// What has to be simulated beside leaking wires, and from which input shares it may not be.
#[derive(Drop)]
pub struct Event {
    /// How reports name it.
    pub name: Name,
    /// The sets of output shares of which the simulator chooses one, each with bit `16 * output + index` for a share.
    pub sets: Vec<u32>,
    /// Of which inputs too many shares may not be needed.
    pub which: Which,
}
