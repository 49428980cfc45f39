use crate::{
    Collector, Head, Item, Kind, List, NoMemory, Node, Outcome, Split, Table, TakeStop, Taker,
    Verdict,
};
use std::alloc::Global;
use std::test::Fail;

const HEAD: Head = Head {
    horizon: 2,
    stages: 1,
    budget: 10,
};

const SPLIT: Split = Split {
    node: 0,
    supplier: 1,
    customer: 2,
};

fn table(alloc: Global, values: &[u64]) -> Result<Item, NoMemory> {
    Ok(Item::Table(Table {
        stage: 0,
        kind: Kind::Root,
        least: 0,
        most: 2,
        floor: 0,
        children: List::new(alloc),
        values: List::copied(alloc, values)?,
    }))
}

fn node(alloc: Global, root: u32) -> Result<Item, NoMemory> {
    Ok(Item::Node(Node {
        seen: 1,
        roots: List::copied(alloc, &[root])?,
        relaxed: None,
    }))
}

fn end(bound: u64) -> Item {
    Item::End(Verdict {
        outcome: Outcome::Spent,
        bound,
        plan: None,
    })
}

fn hand_all<T: Taker<()>>(taker: &mut T, items: &[Item]) -> Result<(), TakeStop> {
    for item in items {
        taker.take(&mut (), item)?;
    }
    Ok(())
}

// What the certificate of the items has: values of its first table, root of its first node, splits, bound.
fn seen(alloc: Global, items: &[Item]) -> Result<Option<(u64, u32, usize, u64)>, TakeStop> {
    let mut collector = Collector::new(alloc);
    hand_all(&mut collector, items)?;
    let Some(cert) = collector.cert() else {
        return Ok(None);
    };
    if cert.tables.len() != 2 || cert.nodes.len() != 1 {
        return Ok(None);
    }
    let value = cert.tables.get(0).values.as_slice().first().copied();
    let root = cert.nodes.get(0).roots.as_slice().first().copied();
    Ok(Some((
        value.unwrap_or(0),
        root.unwrap_or(0),
        cert.splits.len(),
        cert.verdict.bound,
    )))
}

#[test]
fn a_collector_gives_the_certificate_of_its_items(rt: HostRuntime) -> Result<(), Fail> {
    let alloc = rt.alloc();
    let items = [
        Item::Head(HEAD),
        table(alloc, &[7])?,
        node(alloc, 3)?,
        table(alloc, &[8])?,
        Item::Split(SPLIT),
        end(9),
    ];
    let all = items.as_slice();
    assert_eq!(rt; seen(alloc, all)?, Some((7, 3, 1, 9)));
    assert_eq!(rt; seen(alloc, &all[1..])?, None, "no head");
    assert_eq!(rt; seen(alloc, &all[..5])?, None, "no end");
    Ok(())
}
