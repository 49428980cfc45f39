// The records, with what is looked up in them.
ghost use Rattle.std.specs.Prelude.{◌≡◌, ◌<◌, All, IfOk, [], length, option_map, replicate};
ghost use Rattle.demand_tables.specs.Demand.{arcs_from, named_excess, table_names};
ghost use Rattle.demand_tables.specs.DemandFaults.{lacks_table};
ghost use Rattle.demand_tables.specs.DemandNet.{HaveOwnNames, IsDemandNet};
ghost use Rattle.demand_tables.specs.Lookups.{HasArcs};

use service_model::{List, NoMemory};
use stage_file::{ArcRow, Bound, Names, RawNet, TableRow};
use std::alloc::Global;

/// The records of the files, with the tables by their names and the arcs by their suppliers.
#[derive(Drop)]
pub struct Lookups<'a> {
    pub raw: &'a RawNet,
    tables: Names,
    arcs: Vec<List<ArcRow>>,
    ghost tables_are: { tables ≡ table_names raw.now.tables },
    ghost arcs_are: { HasArcs (length raw.now.stages) raw.now.arcs arcs.items },
}

impl<'a> Lookups<'a> {
    pub fn new(alloc: Global, raw: &'a RawNet) -> Result<Lookups<'a>, NoMemory>
        requires { IsDemandNet raw.now }
        ensures { IfOk result (λ lookups. lookups.raw.now ≡ raw.now) }
    {
        let tables = table_names(alloc, raw.tables.as_slice())?;
        let arcs = arc_lists(alloc, raw.stages.len(), raw.arcs.as_slice())?;
        Ok(Lookups { raw, tables, arcs })
    }

    /// The entries up to the horizon of the table with a name, if there is one.
    #[tactic(auto, unfolding(crate::specs::Demand::named_excess))]
    pub fn named(&self, name: &[u8]) -> Option<&'a [u64]>
        ensures { option_map (λ s. s.now) result ≡ named_excess self.now.raw.now name.now }
    {
        let place = self.tables.place_of(name)?;
        let entries = self.raw.tables.get(place).entries.as_slice();
        Some(&entries[..entries.len().min(self.raw.horizon as usize + 1)])
    }

    /// Whether the bound is the name of no table.
    #[tactic(auto, unfolding(crate::specs::DemandFaults::lacks_table))]
    pub fn lacks_table(&self, bound: &Bound) -> bool
        ensures { result ≡ lacks_table (table_names self.now.raw.now.tables) bound.now }
    {
        match bound {
            Bound::Named(name) => self.tables.place_of(name.as_slice()).is_none(),
            Bound::Normal(_) | Bound::Sum | Bound::Pool => false,
        }
    }

    /// The arcs from a stage to its customers.
    pub fn arcs_from(&self, stage: usize) -> &[ArcRow]
        requires { stage < length self.now.raw.now.stages }
        ensures { result.now ≡ arcs_from self.now.raw.now.arcs stage }
    {
        self.arcs[stage].as_slice()
    }
}

// The names of the tables, by which their places are found.
fn table_names(alloc: Global, tables: &[TableRow]) -> Result<Names, NoMemory>
    requires { HaveOwnNames tables.now }
    ensures { IfOk result (λ names. names ≡ table_names tables.now) }
{
    let mut names = Names::new(alloc);
    'tables: for table in tables {
        names.push(table.name.as_slice())?;
    }
    Ok(names)
}

fn empty_lists(alloc: Global, stages: usize) -> Result<Vec<List<ArcRow>>, NoMemory>
    ensures { IfOk result (λ lists. lists.items ≡ replicate stages []) }
{
    let mut lists = Vec::new(alloc);
    'stages: for _stage in 0..stages {
        lists.push(List::new(alloc))?;
    }
    Ok(lists)
}

// For each stage the arcs to its customers.
fn arc_lists(alloc: Global, stages: usize, arcs: &[ArcRow]) -> Result<Vec<List<ArcRow>>, NoMemory>
    requires { All (λ a. a.supplier < stages) arcs.now }
    ensures { IfOk result (λ lists. HasArcs stages arcs.now lists.items) }
{
    let mut lists = empty_lists(alloc, stages)?;
    'arcs: for arc in arcs {
        lists[arc.supplier as usize].push(*arc)?;
    }
    Ok(lists)
}
