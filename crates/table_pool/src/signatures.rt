// Signatures with their places, which contracts see as tables without values.
ghost use Rattle.std.specs.Prelude.{◌≡◌, ◌≢◌, ℕ, ◌<◌, ◌++◌, ◌∷◌, [], length, OnOk, OnErr, MatchOption};
ghost use Rattle.service_model.specs.Tables.{table_at};
ghost use Rattle.table_pool.specs.Signatures.{signed_by};

use crate::signature::Signature;
use indexmap::IndexSet;
use service_model::NoMemory;
use std::alloc::Global;
use std::marker::Model;

/// Signatures in the order in which they were put. A signature's place is found without a pass over the others.
#[derive(Drop)]
pub struct Signatures {
    signatures: IndexSet<Signature>,
}

impl Model for Signatures {
    ghost use Rattle.std.specs.Prelude.{List, map};
    ghost use Rattle.service_model.specs.declared.table.Table.{Table};
    ghost use Rattle.table_pool.specs.Signatures.{signed_by};

    ghost Value = { List Table };

    ghost view = { λ all. map signed_by all.signatures.keys };
}

impl Signatures {
    /// No signatures.
    pub fn new(alloc: Global) -> Signatures
        ensures { result ≡ [] }
    {
        Signatures {
            signatures: IndexSet::new(alloc),
        }
    }

    /// The place of a signature, from 0 on, if it was put.
    pub fn place_of(&self, signature: &Signature) -> Option<usize>
        ensures { MatchOption result
            ((i : ℕ) → i < length self.now → table_at self.now i ≢ signed_by signature.now)
            (λ i. (i < length self.now) × (table_at self.now i ≡ signed_by signature.now)) }
    {
        self.signatures.get_index_of(signature)
    }

    /// Puts a new signature behind the others.
    pub fn push(&mut self, signature: Signature) -> Result<(), NoMemory>
        requires { (i : ℕ) → i < length self.old → table_at self.old i ≢ signed_by signature }
        ensures ok { OnOk result (self.new ≡ self.old ++ signed_by signature ∷ []) }
        ensures err { OnErr result (self.new ≡ self.old) }
    {
        self.signatures.insert(signature)?;
        Ok(())
    }
}
