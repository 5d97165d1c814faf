ghost use Rattle.std.specs.Prelude.{◌≡◌};

mod threads;

use crate::GenerationRing as Adapter;
use ifl_base::{Stamp, Ticket};
use ifl_desc::{Desc, DescFault, DescRing, Status};
use ifl_mbuf::{Cluster, Seg, make_clusters};
use std::test::*;

/// A descriptor of one byte, of the frame with this number.
fn desc(cluster: Cluster, index: u32, last: bool) -> Desc
    ensures { (result.last ≡ last) × (result.status ≡ Status.Posted) }
{
    Desc {
        seg: Seg::fill(cluster, &[7]),
        ticket: Ticket { sender: 0, index },
        stamp: Stamp {
            sec: 1,
            usec: 2,
            orig: 3,
        },
        last,
        status: Status::Posted,
    }
}

/// The same descriptor, emitted.
fn emitted(d: Desc) -> Desc
    ensures { (result.last ≡ d.last) × (result.status ≡ Status.Emitted) }
{
    Desc {
        seg: d.seg,
        ticket: d.ticket,
        stamp: d.stamp,
        last: d.last,
        status: Status::Emitted,
    }
}

/// The frame and the status of the oldest descriptor that came back.
fn taken_back<R: DescRing>(ring: &R, driver: &mut R::Driver) -> Option<(u32, Status)>
    requires { (R.driver_sees driver.old).ring ≡ R.ring ring.now }
    ensures { (R.driver_sees driver.new).ring ≡ R.ring ring.now }
{
    let d = ring.reclaim(driver)?;
    Some((d.ticket.index, d.status))
}

#[test]
fn two_descriptors_go_round(rt: HostRuntime) -> Result<(), Fail> {
    let mut clusters = make_clusters(rt.alloc(), 2)?;
    let (Some(second), Some(first)) = (clusters.pop(), clusters.pop()) else {
        panic!(rt; "two clusters were made")
    };
    let Ok((ring, mut driver, mut device)) = Adapter::make(rt.alloc(), 8) else {
        panic!(rt; "no memory")
    };
    ring.post(&mut driver, desc(first, 0, false));
    ring.post(&mut driver, desc(second, 1, true));
    assert_eq!(rt; ring.avail(&driver), 5);
    ring.flush(&mut driver);
    assert_eq!(rt; ring.fetch(&mut device), 2);
    assert_eq!(rt; ring.fetch(&mut device), 0);
    let (Some(first), Some(second)) = (ring.next(&mut device), ring.next(&mut device)) else {
        panic!(rt; "two are rung")
    };
    assert!(rt; ring.next(&mut device).is_none());
    assert_eq!(rt; first.ticket.index, 0);
    assert_eq!(rt; second.ticket.index, 1);
    ring.complete(&mut device, emitted(first));
    assert_eq!(rt; ring.credits(&mut driver), 0);
    ring.complete(&mut device, emitted(second));
    assert_eq!(rt; ring.credits(&mut driver), 2);
    assert_eq!(rt; taken_back(&ring, &mut driver), Some((0, Status::Emitted)));
    assert_eq!(rt; taken_back(&ring, &mut driver), Some((1, Status::Emitted)));
    assert_eq!(rt; taken_back(&ring, &mut driver), None);
    Ok(())
}

#[test]
fn sizes(rt: HostRuntime) {
    for size in [7, 32_769] {
        match Adapter::make(rt.alloc(), size) {
            Err(DescFault::BadSize(n)) => assert_eq!(rt; n, size),
            _ => panic!(rt; "a ring has 8 to 32,768 slots"),
        }
    }
    for (size, avail) in [(8, 7), (32_768, 32_767)] {
        let Ok((ring, driver, _)) = Adapter::make(rt.alloc(), size) else {
            panic!(rt; "no memory")
        };
        assert_eq!(rt; ring.size(), size);
        assert_eq!(rt; ring.avail(&driver), avail);
    }
}
