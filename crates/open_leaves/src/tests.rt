use super::*;

#[test]
fn the_least_bound_comes_first_and_then_the_lowest_number(rt: HostRuntime) {
    let alloc = rt.alloc();
    let mut leaves = Leaves::new(alloc);
    let wanted = [(5, 2), (5, 7), (9, 1)];
    assert!(rt; leaves.insert(Leaf { bound: 9, node: 1 }).is_ok());
    assert!(rt; leaves.insert(Leaf { bound: 5, node: 7 }).is_ok());
    assert!(rt; leaves.insert(Leaf { bound: 5, node: 2 }).is_ok());
    assert!(rt; leaves.least() == Some(Leaf { bound: 5, node: 2 }));
    for (bound, node) in wanted {
        assert!(rt; leaves.take_least() == Some(Leaf { bound, node }));
    }
    assert!(rt; leaves.take_least() == None);
}
