// The report lines of a plan.
ghost use Rattle.std.specs.Prelude.{◌≡◌, ◌<◌, ◌++◌, length, map, IfOk, OnOk};
ghost use Rattle.std.specs.List.{range_with_len};
ghost use Rattle.service_model.specs.Plans.{Feasible};
ghost use Rattle.network_check.specs.Checked.{IsChecked};
ghost use Rattle.stock_report.specs.Reports.{stock_line, line_row, report_header, report_row, report_rows};

use crate::text::{number, row_of};
use network_check::Checked;
use service_model::{List, NoMemory, Plan};
use stage_file::{Row, Rows};
use std::alloc::Global;

/// What is reported of a stage: its times, the stock that covers its net replenishment time, and what that costs.
#[derive(Clone, Copy, Debug, PartialEq, Eq)]
pub struct StockLine {
    pub inbound: u16,
    pub outbound: u16,
    pub time: u32,
    pub stock: u64,
    pub cost: u64,
}

/// The header of the report.
pub fn report_header(alloc: Global) -> Result<Row, NoMemory>
    ensures { IfOk result (λ row. row ≡ report_header) }
{
    row_of(
        alloc,
        &["stage", "inbound", "outbound", "time", "stock", "cost"],
    )
}

/// Puts the reports on all stages behind rows, in the order of the stages.
pub fn push_report(
    alloc: Global,
    checked: &Checked,
    plan: &Plan,
    rows: &mut Rows,
) -> Result<(), NoMemory>
    requires checked { IsChecked checked.now }
    requires feasible { Feasible checked.now.network plan.now }
    ensures { OnOk result (rows.new ≡ rows.old ++ report_rows checked.now plan.now) }
{
    'stages: for place in 0..checked.names.len() {
        rows.push(report_row(alloc, checked, plan, place)?)?;
    }
    Ok(())
}

fn report_row(alloc: Global, checked: &Checked, plan: &Plan, place: usize) -> Result<Row, NoMemory>
    requires checked { IsChecked checked.now }
    requires feasible { Feasible checked.now.network plan.now }
    requires within { place < length checked.now.network.stages }
    ensures { IfOk result (λ row. row ≡ report_row checked.now plan.now place) }
{
    let line = stock_line(checked, plan, place);
    line_row(alloc, checked.names.get(place).as_slice(), line)
}

fn stock_line(checked: &Checked, plan: &Plan, place: usize) -> StockLine
    requires checked { IsChecked checked.now }
    requires feasible { Feasible checked.now.network plan.now }
    requires within { place < length checked.now.network.stages }
    ensures { result ≡ stock_line checked.now plan.now place }
{
    let lead = checked.network.stages().get(place).lead;
    let inbound = *plan.inbound.get(place);
    let outbound = *plan.outbound.get(place);
    let time = inbound as u32 + lead as u32 - outbound as u32;
    let stock = *checked.excess.get(place).get(time as usize);
    let cost = *checked.units.get(place) as u64 * stock;
    StockLine {
        inbound,
        outbound,
        time,
        stock,
        cost,
    }
}

fn line_row(alloc: Global, name: &[u8], line: StockLine) -> Result<Row, NoMemory>
    ensures { IfOk result (λ row. row ≡ line_row name.now line) }
{
    let mut row = List::new(alloc);
    row.push(List::copied(alloc, name)?)?;
    row.push(number(alloc, line.inbound as u64)?)?;
    row.push(number(alloc, line.outbound as u64)?)?;
    row.push(number(alloc, line.time as u64)?)?;
    row.push(number(alloc, line.stock)?)?;
    row.push(number(alloc, line.cost)?)?;
    Ok(row)
}
