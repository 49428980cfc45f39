// The arcs between the tables of a node.
ghost use Rattle.std.specs.Prelude.{◌≡◌, ◌<◌, ◌↔◌, All, IfOk, IsTrue, length, replicate};
ghost use Rattle.service_model.specs.Plans.{HasTimes, Meets};
ghost use Rattle.service_model.specs.Networks.{IsNetwork};
ghost use Rattle.service_model.specs.Tables.{table_at};
ghost use Rattle.service_model.specs.LocalSums.{Sound};
ghost use Rattle.service_model.specs.Nodes.{below_roots, IsOnce};

use node_rules::{table_in, walk};
use service_model::{Kind, List, Network, NoMemory, Plan, SupplyArc, Table};
use std::alloc::Global;

/// How the table of a stage hangs: as what kind, and below the table of which stage. A table that hangs below none is a Root.
#[derive(Clone, Copy, Debug, PartialEq, Eq, Drop)]
pub struct Link {
    pub parent: u32,
    pub kind: Kind,
}

ghost use Rattle.split_rules.specs.Links.{no_link, LinksMore, AreLinks, IsHung, children_of};
ghost use Rattle.split_rules.specs.Relaxed.{MeetsBelow};

fn no_links(alloc: Global, stages: usize) -> Result<List<Link>, NoMemory>
    ensures { IfOk result (λ links. links ≡ replicate stages no_link) }
{
    let none = Link {
        parent: 0,
        kind: Kind::Root,
    };
    Ok(List::from_vec(vec![in alloc; none; stages]?))
}

fn link_children(tables: &[Table], number: usize, links: &mut List<Link>)
    requires there { number < length tables.now }
    requires children { All (λ c. (c < length tables.now) × ((table_at tables.now c).stage < length links.old)) (table_at tables.now number).children }
    requires once { IsOnce tables.now (table_at tables.now number).children }
    ensures { LinksMore tables.now number (table_at tables.now number).children links.old links.new }
{
    let parent = table_in(tables, number);
    'children: for child in parent.children.as_slice() {
        let table = table_in(tables, *child as usize);
        let link = Link {
            parent: parent.stage,
            kind: table.kind,
        };
        links.set(table.stage as usize, link);
    }
}

// How the tables at or below the roots hang, these being their numbers.
fn links_of(
    alloc: Global,
    network: &Network,
    tables: &[Table],
    numbers: &[u32],
) -> Result<List<Link>, NoMemory>
    requires sound { Sound network.now tables.now }
    requires there { All (λ k. k < length tables.now) numbers.now }
    requires once { IsOnce tables.now (children_of tables.now numbers.now) }
    ensures { IfOk result (AreLinks network.now tables.now numbers.now) }
{
    let mut links = no_links(alloc, network.stages().len())?;
    'numbers: for number in numbers {
        link_children(tables, *number as usize, &mut links);
    }
    Ok(links)
}

fn is_hung(links: &List<Link>, arc: &SupplyArc) -> bool
    requires supplier { arc.now.supplier < length links.now }
    requires customer { arc.now.customer < length links.now }
    ensures { IsTrue result ↔ IsHung links.now arc.now }
{
    let supplier = links.get(arc.supplier as usize);
    let customer = links.get(arc.customer as usize);
    supplier.kind == Kind::Down && supplier.parent == arc.customer
        || customer.kind == Kind::Up && customer.parent == arc.supplier
}

fn meets(plan: &Plan, arc: &SupplyArc) -> bool
    requires supplier { arc.now.supplier < length plan.now.outbound }
    requires customer { arc.now.customer < length plan.now.inbound }
    ensures { IsTrue result ↔ Meets plan.now arc.now }
{
    let quoted = *plan.outbound.get(arc.supplier as usize) as u32;
    quoted + arc.transit as u32 <= *plan.inbound.get(arc.customer as usize) as u32
}

fn meets_hung(network: &Network, links: &List<Link>, plan: &Plan) -> bool
    requires links { length links.now ≡ length network.now.stages }
    requires times { HasTimes network.now plan.now }
    ensures met { IsTrue result ↔ All (λ a. IsHung links.now a → Meets plan.now a) network.now.arcs }
    ensures valid { IsNetwork network.now }
{
    'arcs: for a in 0..network.arcs().len() {
        let arc = network.arcs().get(a);
        if is_hung(links, arc) && !meets(plan, arc) {
            return false;
        }
    }
    true
}

/// Whether the plan meets the arcs between the tables at or below the roots: a pass over these tables, and one over the arcs.
pub fn meets_below(
    alloc: Global,
    network: &Network,
    tables: &[Table],
    roots: &[u32],
    plan: &Plan,
) -> Result<bool, NoMemory>
    requires sound { Sound network.now tables.now }
    requires there { All (λ k. k < length tables.now) roots.now }
    requires once { IsOnce tables.now (below_roots tables.now roots.now) }
    requires times { HasTimes network.now plan.now }
    ensures { IfOk result (λ met. IsTrue met ↔ MeetsBelow network.now tables.now roots.now plan.now) }
{
    let Some(numbers) = walk(alloc, network, tables, roots)? else {
        unreachable!();
    };
    let links = links_of(alloc, network, tables, numbers.as_slice())?;
    Ok(meets_hung(network, &links, plan))
}
