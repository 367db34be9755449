//! Nodes that are made once each, up to the limit of their pool.

use node_pool::{Full, NodeNo, Pool};
use std::process::Abort;
use std::test::Fail;

const FALSE: NodeNo = NodeNo(0);

const TRUE: NodeNo = NodeNo(1);

/// Makes a node whose conditions are tested first.
fn make(
    rt: &impl Abort,
    pool: &mut Pool,
    var: u16,
    low: NodeNo,
    high: NodeNo,
) -> Result<NodeNo, Full> {
    let numbers = pool.used() + 2;
    assert!(rt; var < pool.vars());
    assert!(rt; low.0 < numbers && high.0 < numbers);
    assert!(rt; var < pool.top(low) && var < pool.top(high));
    pool.make(var, low, high)
}

/// Makes a node, and answers its number, 0 where it is refused, and how many nodes there are then.
fn made(rt: &impl Abort, pool: &mut Pool, var: u16, low: u32, high: u32) -> (u32, u32) {
    match make(rt, pool, var, NodeNo(low), NodeNo(high)) {
        Ok(number) => (number.0, pool.used()),
        Err(Full) => (0, pool.used()),
    }
}

/// Makes nodes over the last two of three variables.
fn check_first(rt: &impl Abort, pool: &mut Pool) {
    assert_eq!(rt;
        (
            made(rt, pool, 2, 0, 1),
            made(rt, pool, 2, 0, 1),
            made(rt, pool, 2, 1, 0),
            made(rt, pool, 1, 2, 2),
            made(rt, pool, 1, 0, 2),
            made(rt, pool, 1, 2, 0),
        ),
        ((2, 1), (2, 1), (3, 2), (2, 2), (4, 3), (5, 4))
    );
}

/// Makes a fifth node, the last that has room, and nodes that are there.
fn check_last(rt: &impl Abort, pool: &mut Pool) {
    assert_eq!(rt;
        (
            made(rt, pool, 1, 0, 2),
            made(rt, pool, 0, 4, 5),
            made(rt, pool, 0, 5, 4),
            made(rt, pool, 0, 4, 5),
            made(rt, pool, 0, 3, 3),
            made(rt, pool, 2, 1, 0),
        ),
        ((4, 4), (6, 5), (0, 5), (6, 5), (3, 5), (3, 5))
    );
}

/// Tells of the pool of five nodes.
fn check_told(rt: &impl Abort, pool: &Pool) {
    assert_eq!(rt; (pool.limit(), pool.vars(), pool.used()), (5, 3, 5));
    assert_eq!(rt; pool.triple(NodeNo(6)), (0, NodeNo(4), NodeNo(5)));
    assert_eq!(rt; (pool.top(FALSE), pool.top(NodeNo(4))), (3, 1));
    assert!(rt; pool.same(NodeNo(6), NodeNo(6)) && !pool.same(NodeNo(2), NodeNo(3)));
}

#[test]
fn makes_each_triple_once_up_to_the_limit(rt: HostRuntime) -> Result<(), Fail> {
    let mut pool = Pool::new(rt.alloc(), 5, 3)?;
    check_first(&rt, &mut pool);
    check_last(&rt, &mut pool);
    check_told(&rt, &pool);
    Ok(())
}

#[test]
fn a_limit_of_one_holds_one_node(rt: HostRuntime) -> Result<(), Fail> {
    let mut pool = Pool::new(rt.alloc(), 1, 1)?;
    assert_eq!(rt;
        (
            made(&rt, &mut pool, 0, 0, 1),
            made(&rt, &mut pool, 0, 1, 0),
            made(&rt, &mut pool, 0, 0, 1),
        ),
        ((2, 1), (0, 1), (2, 1))
    );
    assert_eq!(rt; pool.limit(), 1);
    Ok(())
}

/// Makes a chain of nodes, one for each variable, and answers the first.
fn chain(rt: &impl Abort, pool: &mut Pool) -> Result<NodeNo, Full> {
    let mut all = TRUE;
    for var in (0..256).rev() {
        all = make(rt, pool, var, FALSE, all)?;
    }
    Ok(all)
}

#[test]
fn all_of_256_variables_is_a_chain(rt: HostRuntime) -> Result<(), Fail> {
    let mut pool = Pool::new(rt.alloc(), 256, 256)?;
    assert_eq!(rt;
        (chain(&rt, &mut pool), pool.used()),
        (Ok(NodeNo(257)), 256)
    );
    assert_eq!(rt; pool.triple(NodeNo(257)), (0, FALSE, NodeNo(256)));
    Ok(())
}

/// Makes the nodes with this low child and each of so many high children, and tells whether one was refused.
fn is_full_after_row(
    rt: &impl Abort,
    pool: &mut Pool,
    var: u16,
    low: NodeNo,
    numbers: u32,
) -> bool {
    for high in 0..numbers {
        if make(rt, pool, var, low, NodeNo(high)) == Err(Full) {
            return true;
        }
    }
    false
}

/// Makes all nodes with the variable over the numbers that are there, and tells whether one was refused.
fn is_full_after_level(rt: &impl Abort, pool: &mut Pool, var: u16) -> bool {
    let numbers = pool.used() + 2;
    for low in 0..numbers {
        if is_full_after_row(rt, pool, var, NodeNo(low), numbers) {
            return true;
        }
    }
    false
}

/// Makes nodes, the last variables first, until one is refused.
fn fill(rt: &impl Abort, pool: &mut Pool) {
    for var in (0..256).rev() {
        if is_full_after_level(rt, pool, var) {
            return;
        }
    }
}

/// Tests that a pool of the greatest size is full, and finds its first and its last node.
fn check_full(rt: &impl Abort, pool: &mut Pool) {
    assert_eq!(rt; pool.used(), 1_048_576);
    let (var, low, high) = pool.triple(NodeNo(1_048_577));
    assert_eq!(rt;
        (
            made(rt, pool, 0, 2, 3),
            made(rt, pool, 255, 0, 1),
            made(rt, pool, var, low.0, high.0),
        ),
        ((0, 1_048_576), (2, 1_048_576), (1_048_577, 1_048_576),)
    );
}

#[test]
fn a_full_pool_of_the_greatest_size_finds_its_triples(rt: HostRuntime) -> Result<(), Fail> {
    let mut pool = Pool::new(rt.alloc(), 1_048_576, 256)?;
    fill(&rt, &mut pool);
    check_full(&rt, &mut pool);
    Ok(())
}
