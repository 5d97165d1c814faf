ghost use Rattle.std.specs.Prelude.{◌≡◌, ◌≤◌, IfOk};
ghost use Rattle.ifl_pool.specs.Passes.{OwesTheSame};

use super::{Pool, PoolPass, retire};
use ifl_base::NoMemory;
use std::alloc::Global;
use std::sync::Wait;
use std::test::*;
use std::thread::{Threads, join};

#[test]
fn pool_of_one(rt: HostRuntime) -> Result<(), Fail> {
    let (pool, mut pass) = Pool::new(&rt, rt.alloc(), 1)?;
    let cluster = pool.take(&rt, &mut pass).expect(&rt, "the pool is full");
    assert_eq!(rt; cluster.number(), 0);
    assert!(rt; pool.take(&rt, &mut pass).is_none());
    pool.give(&rt, &mut pass, cluster);
    let closed = pool.close(&rt, pass);
    assert_eq!(rt; closed.count(), 1);
    assert_eq!(rt; retire(closed.into_clusters()), 1);
    Ok(())
}

#[test]
fn numbers_in_order(rt: HostRuntime) -> Result<(), Fail> {
    for n in [1, 2, 33] {
        let (pool, mut pass) = Pool::new(&rt, rt.alloc(), n)?;
        for number in 0..n {
            let cluster = pool
                .take(&rt, &mut pass)
                .expect(&rt, "the pool is not empty");
            assert_eq!(rt; cluster.number(), number);
        }
        assert!(rt; pool.take(&rt, &mut pass).is_none(), "at {n}");
    }
    Ok(())
}

// Takes a cluster and gives it back, so many times.
fn borrow<R: Wait>(rt: &R, pool: &Pool, pass: PoolPass, times: u32) -> PoolPass
    requires { pass.pool ≡ pool.now }
    ensures own { result.pool ≡ pool.now }
    ensures back { OwesTheSame pass.known result.known }
{
    let mut pass = pass;
    for _ in 0..times {
        if let Some(cluster) = pool.take(rt, &mut pass) {
            pool.give(rt, &mut pass, cluster);
        }
    }
    pass
}

// Does it in two threads.
fn borrow_by_two<R: Threads + Wait + Sync>(
    rt: &R,
    pool: &Pool,
    pass: PoolPass,
    times: u32,
) -> PoolPass
    requires own { pass.pool ≡ pool.now }
    requires part { 2 ≤ pass.known.part }
    ensures own { result.pool ≡ pool.now }
    ensures back { OwesTheSame pass.known result.known }
{
    let mut left = pass;
    let right = pool.split(&mut left);
    let (mut left, right) = join(
        rt,
        move ||
            requires { left.pool ≡ pool.now }
            ensures { (result.pool ≡ pool.entry.now) × OwesTheSame left.known result.known }
        { borrow(rt, pool, left, times) },
        move ||
            requires { right.pool ≡ pool.now }
            ensures { (result.pool ≡ pool.entry.now) × OwesTheSame right.known result.known }
        { borrow(rt, pool, right, times) },
    );
    pool.join(&mut left, right);
    left
}

// Does it in four threads, and then closes the pool: all clusters are back.
fn share<R: Threads + Wait + Sync>(
    rt: &R,
    alloc: Global,
    n: u32,
    times: u32,
) -> Result<u32, NoMemory>
    requires { (1 ≤ n) × (n ≤ 65536) }
    ensures { IfOk result (λ count. count ≡ n) }
{
    let (pool, mut left) = Pool::new(rt, alloc, n)?;
    let right = pool.split(&mut left);
    let shared = &pool;
    let (mut left, right) = join(
        rt,
        move ||
            requires { (left.pool ≡ shared.now) × (2 ≤ left.known.part) }
            ensures { (result.pool ≡ shared.entry.now) × OwesTheSame left.known result.known }
        { borrow_by_two(rt, shared, left, times) },
        move ||
            requires { (right.pool ≡ shared.now) × (2 ≤ right.known.part) }
            ensures { (result.pool ≡ shared.entry.now) × OwesTheSame right.known result.known }
        { borrow_by_two(rt, shared, right, times) },
    );
    pool.join(&mut left, right);
    let closed = pool.close(rt, left);
    Ok(retire(closed.into_clusters()))
}

#[test]
fn four_threads(rt: HostRuntime) -> Result<(), Fail> {
    for n in [1, 2, 4, 64] {
        assert_eq!(rt; share(&rt, rt.alloc(), n, 1_000)?, n);
    }
    Ok(())
}
