// What `explain` prints.
ghost use Rattle.std.specs.Prelude.{◌≡◌, IfOk};
ghost use Rattle.network_check.specs.Checked.{IsChecked};
ghost use Rattle.stock_report.specs.Lines.{lines_of};
ghost use Rattle.stock_report.specs.Explanations.{IsExplainable, explain_rows};

use crate::check::valid_row;
use crate::node::push_nodes;
use crate::notes::push_notes;
use crate::text::text_of;
use network_check::Checked;
use service_model::{Cert, List, NoMemory};
use stage_file::{Rows, Text};
use std::alloc::Global;

/// What is printed for a certificate that is accepted: its verdict, what became of each node, and what binds its plan.
pub fn explain_text(alloc: Global, checked: &Checked, cert: &Cert) -> Result<Text, NoMemory>
    requires checked { IsChecked checked.now }
    requires explainable { IsExplainable checked.now.network cert.now }
    ensures { IfOk result (λ text. text ≡ lines_of (explain_rows checked.now cert.now)) }
{
    let rows = explain_rows(alloc, checked, cert)?;
    text_of(alloc, rows.as_slice())
}

fn explain_rows(alloc: Global, checked: &Checked, cert: &Cert) -> Result<Rows, NoMemory>
    requires checked { IsChecked checked.now }
    requires explainable { IsExplainable checked.now.network cert.now }
    ensures { IfOk result (λ rows. rows ≡ explain_rows checked.now cert.now) }
{
    let mut rows = List::new(alloc);
    rows.push(valid_row(alloc, &checked.network, &cert.verdict)?)?;
    push_nodes(alloc, checked, cert, &mut rows)?;
    push_notes(alloc, checked, &cert.verdict.plan, &mut rows)?;
    Ok(rows)
}
