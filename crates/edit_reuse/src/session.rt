// A session.
ghost use Rattle.std.specs.Prelude.{◌≡◌, ◌+◌, ◌≤◌, ◌^◌, IfOk, OnErr, length};
ghost use Rattle.service_model.specs.declared.limits.TheConstants.{MAX_HORIZON};
ghost use Rattle.stage_file.specs.Raw.{AreFiles};
ghost use Rattle.network_check.specs.declared.budget.TheConstants.{MOST_VALUES};
ghost use Rattle.edit_script.specs.Steps.{IsWhole};

use crate::SessionFault;
use crate::budget::{Budgeted, budgeted_network};
use edit_script::{Edit, apply};
use network_check::Checked;
use range_branch::search;
use service_model::{Cert, NoMemory, topological_order};
use stage_file::{Files, ReadFault};
use std::alloc::Global;
use std::marker::Model;
use step_ledger::Steps;
use table_pool::Pool;
use tree_order::forest_of;

/// The files of a network on which every rule holds, edited and solved in turn.
#[derive(Drop)]
pub struct Session {
    alloc: Global,
    files: Files,
    horizon: u16,
    asked: Option<u32>,
    made: Budgeted,
}

impl Model for Session {
    ghost use Rattle.edit_reuse.specs.Sessions.{State, state_of, IsSession};

    ghost Value = { State };

    ghost view = { λ s. state_of s.files s.horizon s.asked s.made };

    ghost invariant = { λ s. IsSession (state_of s.files s.horizon s.asked s.made) };
}

impl Session {
    ghost use Rattle.edit_reuse.specs.Sessions.{NewCase, IsSession};
    ghost use Rattle.edit_reuse.specs.Refusals.{IsAsked};
    ghost use Rattle.edit_reuse.specs.Edits.{BehindCase, EditCase, HasRoom, IsShort, GrowByTwo};
    ghost use Rattle.edit_reuse.specs.Answers.{IsAnswer};

    /// A session over files under a horizon, with a budget that is asked or the default. On a refusal the files are given up.
    #[tactic(auto, using(crate::proofs::SessionFacts::new_refused))]
    pub fn new(
        alloc: Global,
        files: Files,
        horizon: u16,
        asked: Option<u32>,
    ) -> Result<Session, ReadFault>
        requires horizon { horizon ≤ MAX_HORIZON }
        requires asked { IsAsked asked }
        requires countable { AreFiles files }
        ensures { NewCase horizon asked files result }
    {
        let made = budgeted_network(alloc, &files, horizon, asked)?;
        Ok(Session {
            alloc,
            files,
            horizon,
            asked,
            made,
        })
    }

    /// Makes an edit of the files, if what it names has a record and all rules hold on the files behind it.
    #[tactic(auto, using(crate::proofs::SessionFacts::edit_refused, crate::proofs::SessionFacts::edit_done, crate::proofs::SessionFacts::edit_grows, crate::proofs::SessionFacts::not_grown, crate::proofs::SessionFacts::session_behind))]
    pub fn edit(&mut self, edit: &Edit) -> Result<(), SessionFault>
        requires whole { IsWhole edit.now }
        requires short { IsShort edit.now }
        requires room { HasRoom self.old.files }
        ensures value { EditCase self.old edit.now self.new result }
        ensures unchanged { OnErr result (self.new ≡ self.old) }
        ensures grown { GrowByTwo self.old.files self.new.files }
    {
        let (files, made) = self.behind(edit)?;
        self.files = files;
        self.made = made;
        Ok(())
    }

    // The files behind an edit, with their network and its budget.
    #[tactic(auto, using(crate::proofs::SessionFacts::session_column, crate::proofs::SessionFacts::apply_refused))]
    fn behind(&self, edit: &Edit) -> Result<(Files, Budgeted), SessionFault>
        requires whole { IsWhole edit.now }
        requires short { IsShort edit.now }
        requires room { HasRoom self.now.files }
        ensures { BehindCase self.now edit.now result }
    {
        let files = apply(self.alloc, &self.files, edit)?;
        let made = budgeted_network(self.alloc, &files, self.horizon, self.asked)?;
        Ok((files, made))
    }

    /// The certificate of a search over the network, which begins with no tables. Each table is a step.
    #[tactic(auto, using(crate::proofs::BudgetFacts::budget_some, crate::proofs::BudgetFacts::few_tables))]
    pub fn solve<L>(&mut self, steps: &mut Steps<L>) -> Result<Cert, NoMemory>
        requires room { steps.old + MOST_VALUES ≤ 2 ^ 63 }
        ensures answer { IfOk result (IsAnswer self.old) }
        ensures unchanged { self.new ≡ self.old }
        ensures filled { IfOk result (λ c. steps.new ≡ steps.old + length c.tables) }
        ensures later { steps.old ≤ steps.new }
        ensures few { steps.new ≤ steps.old + MOST_VALUES }
    {
        let network = &self.made.checked.network;
        let forest = forest_of(self.alloc, network)?;
        let order = topological_order(self.alloc, network)?;
        let mut pool = Pool::new(self.alloc);
        search(
            self.alloc,
            network,
            &forest,
            &order,
            self.made.budget,
            &mut pool,
            steps,
        )
    }

    /// The files as they stand.
    pub fn files(&self) -> &Files
        ensures value { result.now ≡ self.now.files }
        ensures session { IsSession self.now }
    {
        &self.files
    }

    /// The network of the files as they stand, with its names, units and excess demands.
    pub fn checked(&self) -> &Checked
        ensures value { result.now ≡ self.now.made.checked }
        ensures session { IsSession self.now }
    {
        &self.made.checked
    }
}
