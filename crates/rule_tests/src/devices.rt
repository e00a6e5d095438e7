//! The calls of a device that never fails, and of one that fails by its plan.
use device_states::{Bench, CalmBench, Dead, Device, SimBench};
use home_types::DeviceNo;

#[test]
fn never_dies(rt: HostRuntime) {
    let built = CalmBench.build(rt.alloc(), DeviceNo(3), 18, &[(1, 9)]);
    let mut device = built.expect(&rt, "memory");
    assert!(rt; device.sense() == Ok(18));
    assert!(rt; device.drive(20) == Ok(()));
    assert!(rt; device.sense() == Ok(20));
    assert!(rt; device.probe() == Ok(()));
    assert!(rt; (device.turns(), device.drives()) == (3, 1));
    assert!(rt; (device.probes(), device.faults()) == (1, 0));
}

#[test]
fn dies_by_its_plan(rt: HostRuntime) {
    let built = SimBench.build(rt.alloc(), DeviceNo(3), 18, &[(2, 4), (6, 7)]);
    let mut device = built.expect(&rt, "memory");
    assert!(rt; device.drive(5) == Ok(()));
    assert!(rt; device.drive(9) == Err(Dead));
    assert!(rt; device.probe() == Err(Dead));
    assert!(rt; device.sense() == Ok(5));
    assert!(rt; device.probe() == Ok(()));
    assert!(rt; device.sense() == Err(Dead));
    assert!(rt; device.drive(8) == Ok(()));
    assert!(rt; (device.turns(), device.drives()) == (3, 2));
    assert!(rt; (device.probes(), device.faults()) == (2, 3));
}
