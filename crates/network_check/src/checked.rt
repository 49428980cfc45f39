// A network with what its files say beside it.
use service_model::{List, Network};
use stage_file::Text;

/// A network with the names, units and excess demands of its stages, one entry for each stage in their order.
#[derive(Drop)]
pub struct Checked {
    pub network: Network,
    pub names: List<Text>,
    /// The holding cost of one unit of stock, in currency units.
    pub units: List<u32>,
    /// The stock that covers each net replenishment time, from 0 on, in units.
    pub excess: List<List<u64>>,
}
