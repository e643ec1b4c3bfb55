use crate::fixtures::set_of;
use std::test::Fail;
use tl_base::Tid;
use tl_collect::Floors;

#[test]
fn the_manager_behind_holds_the_least(rt: HostRuntime) -> Result<(), Fail> {
    // A manager, the mark that is learned of it, and the least then.
    let steps: [(u8, &'static [Tid], &'static [Tid]); 5] = [
        (0, &[2], &[]),
        (1, &[1, 2, 4], &[2]),
        (0, &[1, 2, 4, 3], &[1, 2, 4]),
        (2, &[], &[1, 2, 4]),
        (1, &[1, 2, 4, 3, 6], &[1, 2, 3, 4]),
    ];
    let alloc = rt.alloc();
    let mut floors = Floors::new(alloc, 2)?;
    assert!(rt; *floors.least() == set_of(alloc, &[])?);
    for (manager, mark, least) in steps {
        floors.learn(manager, set_of(alloc, mark)?);
        assert!(rt; *floors.least() == set_of(alloc, least)?);
    }
    Ok(())
}
