// That the cuts are made, which no contract can say of a call that may find no memory.
use super::{Cut, all_cuts};
use std::test::Fail;

#[test]
fn each_operation_with_each_number(rt: HostRuntime) -> Result<(), Fail> {
    let cuts = all_cuts(rt.alloc(), 3, &[0, 7])?;
    let wanted = [
        Cut { at: 1, kept: 0 },
        Cut { at: 1, kept: 7 },
        Cut { at: 2, kept: 0 },
        Cut { at: 2, kept: 7 },
    ];
    assert!(rt; cuts.as_slice() == wanted.as_slice());
    let none = all_cuts(rt.alloc(), 1, &[0, 7])?;
    assert!(rt; none.is_empty());
    Ok(())
}
