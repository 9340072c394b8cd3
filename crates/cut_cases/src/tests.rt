// The change with the longest listing under write-behind: a test, since a program that tried it too would take longer than a program may.
use super::{longest_change, pairs_of};
use crate::runs::Layer;
use anyhow::Context;
use naming::Name;

#[test]
fn longest_change_under_write_behind(rt: HostRuntime) -> anyhow::Result<()> {
    let name = Name::new(b"vacuum-1").context("no name")?;
    let found = pairs_of(rt.alloc(), &longest_change(name), Layer::WriteBehind)?;
    let second = found.second;
    let told = format!(in rt.alloc(); "{second}")?;
    assert_eq!(rt; found.first, 260);
    assert!(rt;
        told.as_str() == "260 uncut, 32272 found as before, 528 found as after, 0 found otherwise"
    );
    Ok(())
}
