// What a table is of, which tells it from all others of a pool.
ghost use Rattle.std.specs.Prelude.{◌≡◌, [], IfOk};
ghost use Rattle.tree_tables.specs.Fills.{table_of};
ghost use Rattle.table_pool.specs.Signatures.{signed_by};

use service_model::{Kind, NoMemory};
use std::alloc::Global;
use tree_tables::{ChildList, Wanted};

/// All of a table but its values.
#[derive(PartialEq, Eq, Drop)]
#[derive_where(Hash)]
pub struct Signature {
    pub stage: u32,
    // The tables of a stage are mostly of one kind, so the hash leaves it out.
    #[derive_where(skip(Hash))]
    pub kind: Kind,
    pub least: u16,
    pub most: u16,
    pub floor: u16,
    pub children: ChildList,
}

impl Signature {
    /// The signature of the wanted table.
    pub fn of(alloc: Global, wanted: &Wanted) -> Result<Signature, NoMemory>
        ensures { IfOk result (λ signature. signed_by signature ≡ table_of wanted.now []) }
    {
        Ok(Signature {
            stage: wanted.stage,
            kind: wanted.kind,
            least: wanted.least,
            most: wanted.most,
            floor: wanted.floor,
            children: ChildList::from_slice(alloc, wanted.children.as_slice())?,
        })
    }
}
