// The tables that were filled, which contracts see as a list of tables.
ghost use Rattle.std.specs.Prelude.{◌≡◌, ◌+◌, ◌<◌, ◌^◌, [], length, IfOk, OnErr};
ghost use Rattle.service_model.specs.Tables.{table_at};
ghost use Rattle.tree_tables.specs.Fills.{IsWanted};

use crate::signature::Signature;
use crate::signatures::Signatures;
use service_model::{Network, NoMemory, Table};
use std::alloc::Global;
use std::marker::Model;
use step_ledger::Steps;
use tree_tables::{Filled, Wanted, fill};

/// The tables that were filled, each once.
#[derive(Drop)]
pub struct Pool {
    alloc: Global,
    made: Vec<Filled>,
    // The signature of each table, at the table's number.
    signatures: Signatures,
}

impl Model for Pool {
    ghost use Rattle.std.specs.Prelude.{◌≡◌, List, map};
    ghost use Rattle.service_model.specs.declared.table.Table.{Table};
    ghost use Rattle.table_pool.specs.Signatures.{unvalued};

    ghost Value = { List Table };

    ghost view = { λ pool. pool.made.items };

    ghost invariant = { λ pool. pool.signatures ≡ map unvalued pool.made.items };
}

impl Pool {
    ghost use Rattle.service_model.specs.Net.{Net};
    ghost use Rattle.table_pool.specs.Pools.{IsPool, IsFoundOrFilled, IsUnchanged};

    /// A pool of no tables.
    pub fn new(alloc: Global) -> Pool
        ensures empty { result ≡ [] }
        ensures serves { (n : Net) → IsPool n result }
    {
        Pool {
            alloc,
            made: Vec::new(alloc),
            signatures: Signatures::new(alloc),
        }
    }

    /// The tables, in the order in which they were filled.
    pub fn filled(&self) -> &[Filled]
        ensures { result.now ≡ self.now }
    {
        self.made.as_slice()
    }

    /// The table of a number.
    pub fn table(&self, id: u32) -> &Table
        requires { id < length self.now }
        ensures { result.now ≡ table_at self.now id }
    {
        self.made[id as usize].table()
    }

    /// Gives all tables up.
    pub fn clear(&mut self)
        ensures empty { self.new ≡ [] }
        ensures serves { (n : Net) → IsPool n self.new }
    {
        self.made = Vec::new(self.alloc);
        self.signatures = Signatures::new(self.alloc);
    }

    /// The number of the wanted table, which is filled, and comes to the end, only where the pool does not hold it.
    pub fn find_or_fill<L>(
        &mut self,
        network: &Network,
        wanted: &Wanted,
        steps: &mut Steps<L>,
    ) -> Result<u32, NoMemory>
        requires pool { IsPool network.now self.old }
        requires wanted { IsWanted network.now self.old wanted.now }
        requires many { length self.old + 1 < 2 ^ 32 }
        requires room { steps.old < 2 ^ 63 }
        ensures ok { IfOk result (IsFoundOrFilled network.now self.old self.new wanted.now steps.old steps.new) }
        ensures err { OnErr result (IsUnchanged self.old self.new steps.old steps.new) }
    {
        let signature = Signature::of(self.alloc, wanted)?;
        if let Some(id) = self.signatures.place_of(&signature) {
            return Ok(id as u32);
        }
        let made = self.filled();
        let id = made.len() as u32;
        let table = fill(self.alloc, network, wanted, made, steps)?;
        self.made.reserve(1)?;
        self.signatures.push(signature)?;
        self.made.push_reserved(table);
        Ok(id)
    }
}
