// The worked rows of reports.
use crate::{ReportFault, report_text, write_report};
use bundle_codec::decode;
use op_core::{OpId, ReplicaName};
use replica_state::Replica;
use std::alloc::Global;
use std::process::Abort;
use std::test::Fail;
use usfm_export::StdSink;
use usfm_ref::read_ref;

// 1 ana on MAT 0, and 2 ana on MAT 1:1; neither names anything.
const B1: [u8; 108] =
    *b"USFMSR1\n\0\0\0\0\0\0\0\x02\0\0\0\0\0\0\0\x01\x03anaMAT\0\0\0\0\0\0\0\0\0\0\0\0\0\0\x01\0\0\0\0\0\0\0\x08\\id MAT\n\0\0\0\0\0\0\0\x02\x03anaMAT\0\x01\x01\0\x01\0\0\0\0\0\0\0\0\0\x01\0\0\0\0\0\0\0\x08\\v 1 In\n";

// 3 ben on MAT 1:1, naming 2 ana.
const Y: [u8; 74] =
    *b"USFMSR1\n\0\0\0\0\0\0\0\x01\0\0\0\0\0\0\0\x03\x03benMAT\0\x01\x01\0\x01\0\0\0\0\0\0\0\0\x01\0\0\0\0\0\0\0\x02\x03ana\x01\0\0\0\0\0\0\0\x08\\v 1 At\n";

// 3 ana on MAT 1:1, naming 2 ana.
const Z: [u8; 74] =
    *b"USFMSR1\n\0\0\0\0\0\0\0\x01\0\0\0\0\0\0\0\x03\x03anaMAT\0\x01\x01\0\x01\0\0\0\0\0\0\0\0\x01\0\0\0\0\0\0\0\x02\x03ana\x01\0\0\0\0\0\0\0\x08\\v 1 To\n";

// 2 ana on MAT 1:1, thinned, and 3 ben on it as in Y.
const V2: [u8; 104] =
    *b"USFMSR2\n\0\0\0\0\0\0\0\x02\0\0\0\0\0\0\0\x02\x03anaMAT\0\x01\x01\0\x01\0\0\0\0\0\0\0\0\0\0\0\0\0\0\0\0\0\x03\x03benMAT\0\x01\x01\0\x01\0\0\0\0\0\0\0\0\x01\0\0\0\0\0\0\0\x02\x03ana\x01\0\0\0\0\0\0\0\x08\\v 1 At\n";

// What a replica with B1, Y and Z reports.
const CONFLICT: &[u8] = b"conflict MAT 1:1 2\ntext 3 ben 8\n\\v 1 At\n\ntext 3 ana 8\n\\v 1 To\n\n";

fn begun(alloc: Global, name: &str) -> Result<Replica, Fail> {
    Ok(Replica::new(alloc, ReplicaName::read(name)?))
}

fn receive(alloc: Global, replica: &mut Replica, bytes: &[u8]) -> Result<(), Fail> {
    let (bundle, _) = decode(alloc, bytes)?;
    replica.receive(&bundle)?;
    Ok(())
}

// A replica that received these bundles.
fn received(alloc: Global, name: &str, bundles: &[&[u8]]) -> Result<Replica, Fail> {
    let mut replica = begun(alloc, name)?;
    for bytes in bundles {
        receive(alloc, &mut replica, bytes)?;
    }
    Ok(replica)
}

fn edit(replica: &mut Replica, segment: &str, text: &str) -> Result<(), Fail> {
    let (book, key) = read_ref(segment)?;
    replica.edit(book, key, text)?;
    Ok(())
}

// Gives the segment one text more.
fn edit_beside(replica: &mut Replica, segment: &str, text: &str) -> Result<(), Fail> {
    let (book, key) = read_ref(segment)?;
    replica.edit_over(book, key, text, &[])?;
    Ok(())
}

fn assert_report(
    rt: &impl Abort,
    alloc: Global,
    replica: &Replica,
    report: &[u8],
) -> Result<(), Fail> {
    assert_eq!(rt; report_text(alloc, replica)?.as_slice(), report);
    Ok(())
}

#[test]
fn bundles_in_each_order(rt: HostRuntime) -> Result<(), Fail> {
    let alloc = rt.alloc();
    let (b, y, z) = (B1.as_slice(), Y.as_slice(), Z.as_slice());
    let orders = [
        [b, y, z],
        [b, z, y],
        [y, b, z],
        [y, z, b],
        [z, b, y],
        [z, y, b],
    ];
    assert_eq!(rt; CONFLICT.len(), 63);
    for order in orders {
        let ana = received(alloc, "ana", &order)?;
        assert_report(&rt, alloc, &ana, CONFLICT)?;
    }
    Ok(())
}

#[test]
fn thinning_changes_no_report(rt: HostRuntime) -> Result<(), Fail> {
    let alloc = rt.alloc();
    let mut ana = received(alloc, "ana", &[B1.as_slice(), Y.as_slice(), Z.as_slice()])?;
    assert_eq!(rt; ana.thin(), 1);
    assert_report(&rt, alloc, &ana, CONFLICT)?;
    let ben = received(alloc, "ben", &[V2.as_slice(), Z.as_slice()])?;
    assert_report(&rt, alloc, &ben, CONFLICT)?;
    assert_report(&rt, alloc, &received(alloc, "ben", &[V2.as_slice()])?, b"")
}

#[test]
fn a_late_first_bundle(rt: HostRuntime) -> Result<(), Fail> {
    let alloc = rt.alloc();
    let mut ana = received(alloc, "ana", &[Y.as_slice()])?;
    let awaited = ana.awaited(alloc)?;
    assert!(rt; awaited.as_slice() == [OpId::read("2:ana")?].as_slice());
    assert_report(&rt, alloc, &ana, b"awaited 2 ana\n")?;
    receive(alloc, &mut ana, &B1)?;
    assert!(rt; ana.awaited(alloc)?.is_empty());
    assert_report(&rt, alloc, &ana, b"")
}

#[test]
fn equal_texts_are_one(rt: HostRuntime) -> Result<(), Fail> {
    let alloc = rt.alloc();
    let mut ana = begun(alloc, "ana")?;
    ana.import("\\id MAT\n\\c 1\n\\v 1 a\n")?;
    edit_beside(&mut ana, "MAT 1:1", "\\v 1 a\n")?;
    assert_report(&rt, alloc, &ana, b"")?;
    edit_beside(&mut ana, "MAT 1:1", "\\v 1 b\n")?;
    assert_report(
        &rt,
        alloc,
        &ana,
        b"conflict MAT 1:1 2\ntext 5 ana 7\n\\v 1 b\n\ntext 4 ana 7\n\\v 1 a\n\n",
    )
}

#[test]
fn the_empty_text_in_conflict(rt: HostRuntime) -> Result<(), Fail> {
    let alloc = rt.alloc();
    let mut ana = received(alloc, "ana", &[B1.as_slice()])?;
    let mut ben = received(alloc, "ben", &[B1.as_slice()])?;
    edit(&mut ana, "MAT 1:1", "")?;
    edit(&mut ben, "MAT 1:1", "\\v 1 At\n")?;
    receive(alloc, &mut ana, &ben.bundle(alloc)?)?;
    assert_report(
        &rt,
        alloc,
        &ana,
        b"conflict MAT 1:1 2\ntext 3 ben 8\n\\v 1 At\n\ntext 3 ana 0\n\n",
    )
}

#[test]
fn books_by_the_canon(rt: HostRuntime) -> Result<(), Fail> {
    let alloc = rt.alloc();
    let mut ana = begun(alloc, "ana")?;
    ana.import("\\id 1CO\n")?;
    ana.import("\\id MAT\n")?;
    edit_beside(&mut ana, "1CO 0", "\\id 1CO b\n")?;
    edit_beside(&mut ana, "MAT 0", "\\id MAT b\n")?;
    assert_report(
        &rt,
        alloc,
        &ana,
        b"conflict MAT 0 2\ntext 4 ana 10\n\\id MAT b\n\ntext 2 ana 8\n\\id MAT\n\nconflict 1CO 0 2\ntext 3 ana 10\n\\id 1CO b\n\ntext 1 ana 8\n\\id 1CO\n\n",
    )
}

#[test]
fn a_bridge_against_a_verse(rt: HostRuntime) -> Result<(), Fail> {
    let alloc = rt.alloc();
    let mut ana = begun(alloc, "ana")?;
    ana.import("\\id MAT\n\\c 1\n\\v 3 x\n\\v 4 y\n")?;
    let imported = ana.bundle(alloc)?;
    let mut ben = received(alloc, "ben", &[imported.as_slice()])?;
    edit(&mut ana, "MAT 1:3", "\\v 3 z\n")?;
    edit(&mut ben, "MAT 1:3", "\\v 3-4 xy\n")?;
    let of_ana = ana.bundle(alloc)?;
    receive(alloc, &mut ana, &ben.bundle(alloc)?)?;
    receive(alloc, &mut ben, &of_ana)?;
    for replica in [&ana, &ben] {
        assert_report(
            &rt,
            alloc,
            replica,
            b"conflict MAT 1:3 2\ntext 5 ben 10\n\\v 3-4 xy\n\ntext 5 ana 7\n\\v 3 z\n\n",
        )?;
    }
    Ok(())
}

#[test]
fn a_writer_fails(rt: HostRuntime) -> Result<(), Fail> {
    let alloc = rt.alloc();
    let ana = received(alloc, "ana", &[B1.as_slice(), Y.as_slice(), Z.as_slice()])?;
    let mut room = [0; 20];
    let mut sink = StdSink::new(room.as_mut_slice());
    let answer = write_report(alloc, &ana, &mut sink);
    assert!(rt; answer == Err(ReportFault::WriteFailed { gone: 20 }));
    assert_eq!(rt; sink.failures(), 1);
    drop(sink);
    assert_eq!(rt; room.as_slice(), CONFLICT.split_at(20).0);
    let mut sink = StdSink::new(Vec::new(alloc));
    write_report(alloc, &ana, &mut sink)?;
    assert_eq!(rt; sink.failures(), 0);
    assert_eq!(rt; sink.into_inner().as_slice(), CONFLICT);
    Ok(())
}
