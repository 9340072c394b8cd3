// Each test makes a catalogue of its own on a card of 256 blocks.
use catalogue::Catalogue;
use naming::{Hash, Name};
use queries::{closure, free_run};
use records::{Entry, PathRecord, References, Run};
use std::process::Abort;
use std::test::Fail;

const A: &[u8] = b"0000000000000000000000000000000a";

const B: &[u8] = b"0000000000000000000000000000000b";

const C: &[u8] = b"0000000000000000000000000000000c";

fn hash(part: &[u8]) -> Result<Hash, Fail> {
    Ok(Hash::from_part(part).ok_or("no hash part")?)
}

fn register(part: &[u8], size: u32, first: u32, refs: &[Hash]) -> Result<Entry, Fail> {
    Ok(Entry::Register(PathRecord {
        hash: hash(part)?,
        name: Name::new(b"tool").ok_or("no name")?,
        size,
        first,
        refs: References::from_slice(refs)
            .ok()
            .ok_or("too many references")?,
    }))
}

fn apply(rt: &impl Abort, catalogue: &mut Catalogue, entry: &Entry) {
    assert!(rt; catalogue.apply(entry).is_ok());
}

#[test]
fn registers(rt: HostRuntime) -> Result<(), Fail> {
    let mut catalogue = Catalogue::new(rt.alloc(), 256)?;
    assert!(rt; !catalogue.fits(&register(A, 16385, 129, &[])?));
    assert!(rt; catalogue.fits(&register(A, 16384, 129, &[])?));
    assert!(rt; catalogue.fits(&register(A, 16384, 192, &[])?));
    assert!(rt; !catalogue.fits(&register(A, 16384, 193, &[])?));
    assert!(rt; !catalogue.fits(&register(A, 1, 128, &[])?));
    assert!(rt; !catalogue.fits(&register(A, 0, 129, &[])?));
    assert!(rt; !catalogue.fits(&register(A, 0, 0, &[hash(B)?])?));
    assert!(rt; catalogue.fits(&register(A, 0, 0, &[hash(A)?])?));
    apply(&rt, &mut catalogue, &register(A, 257, 200, &[])?);
    assert!(rt; !catalogue.fits(&register(A, 0, 0, &[])?));
    assert!(rt; !catalogue.fits(&register(B, 1, 201, &[])?));
    assert!(rt; catalogue.fits(&register(B, 1, 202, &[hash(A)?, hash(B)?])?));
    assert!(rt; !catalogue.fits(&register(B, 1, 202, &[hash(B)?, hash(A)?])?));
    Ok(())
}

#[test]
fn generations(rt: HostRuntime) -> Result<(), Fail> {
    let mut catalogue = Catalogue::new(rt.alloc(), 256)?;
    apply(&rt, &mut catalogue, &register(A, 0, 0, &[])?);
    let commit = Entry::Commit {
        profile: 2,
        number: 999999,
        hash: hash(A)?,
    };
    let forget = Entry::Forget {
        profile: 2,
        number: 999999,
    };
    assert!(rt; !catalogue.fits(&forget));
    apply(&rt, &mut catalogue, &commit);
    assert!(rt; !catalogue.fits(&commit));
    assert!(rt; !catalogue.fits(&forget));
    assert!(rt; !catalogue.fits(&Entry::Remove(hash(A)?)));
    Ok(())
}

#[test]
fn closures(rt: HostRuntime) -> Result<(), Fail> {
    let mut catalogue = Catalogue::new(rt.alloc(), 256)?;
    apply(&rt, &mut catalogue, &register(A, 0, 0, &[])?);
    apply(&rt, &mut catalogue, &register(B, 0, 0, &[hash(A)?])?);
    apply(
        &rt,
        &mut catalogue,
        &register(C, 0, 0, &[hash(B)?, hash(C)?])?,
    );
    assert_eq!(rt; closure(&catalogue, 0).len(), 1);
    assert_eq!(rt; closure(&catalogue, 2).len(), 3);
    assert_eq!(rt; closure(&catalogue, 3).len(), 0);
    assert!(rt; !catalogue.fits(&Entry::Remove(hash(B)?)));
    apply(&rt, &mut catalogue, &Entry::Remove(hash(C)?));
    assert!(rt; catalogue.fits(&Entry::Remove(hash(B)?)));
    Ok(())
}

#[test]
fn free_runs(rt: HostRuntime) -> Result<(), Fail> {
    let mut catalogue = Catalogue::new(rt.alloc(), 256)?;
    assert_eq!(rt; free_run(&catalogue, &[], 0), Some(0));
    assert_eq!(rt; free_run(&catalogue, &[], 1), Some(255));
    assert_eq!(rt; free_run(&catalogue, &[], 2), Some(254));
    apply(&rt, &mut catalogue, &register(A, 256, 254, &[])?);
    assert_eq!(rt; free_run(&catalogue, &[], 1), Some(255));
    assert_eq!(rt; free_run(&catalogue, &[], 2), Some(252));
    let half_built = [Run {
        first: 129,
        count: 100,
    }];
    assert_eq!(rt; free_run(&catalogue, &half_built, 25), Some(229));
    assert_eq!(rt; free_run(&catalogue, &half_built, 26), None);
    Ok(())
}
