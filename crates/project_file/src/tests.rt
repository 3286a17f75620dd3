// The worked rows of project files.
use crate::{CreateFault, LoadFault, create, judge, load, load_book, save};
use bundle_codec::{BundleFault, JoinFault, Summary, WholeFault, decode_whole};
use op_core::OpId;
use std::alloc::{AllocError, Global};
use std::process::Abort;
use std::test::Fail;
use usfm_ref::Book;

// The project file of a replica `ana` that holds nothing.
const ANA: [u8; 28] = *b"USFMPJ1\n\x03anaUSFMSR1\n\0\0\0\0\0\0\0\0";

// 1 ana on MAT 0, and 2 ana on MAT 1:1; neither names anything.
const B1: [u8; 108] =
    *b"USFMSR1\n\0\0\0\0\0\0\0\x02\0\0\0\0\0\0\0\x01\x03anaMAT\0\0\0\0\0\0\0\0\0\0\0\0\0\0\x01\0\0\0\0\0\0\0\x08\\id MAT\n\0\0\0\0\0\0\0\x02\x03anaMAT\0\x01\x01\0\x01\0\0\0\0\0\0\0\0\0\x01\0\0\0\0\0\0\0\x08\\v 1 In\n";

// 2 ana on MAT 1:1, thinned, and 3 ben on it, naming 2 ana.
const V2: [u8; 104] =
    *b"USFMSR2\n\0\0\0\0\0\0\0\x02\0\0\0\0\0\0\0\x02\x03anaMAT\0\x01\x01\0\x01\0\0\0\0\0\0\0\0\0\0\0\0\0\0\0\0\0\x03\x03benMAT\0\x01\x01\0\x01\0\0\0\0\0\0\0\0\x01\0\0\0\0\0\0\0\x02\x03ana\x01\0\0\0\0\0\0\0\x08\\v 1 At\n";

// 3 ana on RUT 0, which names nothing.
const RUTH: [u8; 46] =
    *b"\0\0\0\0\0\0\0\x03\x03anaRUT\0\0\0\0\0\0\0\0\0\0\0\0\0\0\x01\0\0\0\0\0\0\0\x08\\id RUT\n";

// A summary that covers 1 ana.
const FIRST: [u8; 44] =
    *b"USFMSS1\n\0\0\0\0\0\0\0\x01\x03ana\0\0\0\0\0\0\0\x01\0\0\0\0\0\0\0\x01\0\0\0\0\0\0\0\x01";

const NO_NAMES: &[u8] = b"USFMSS1\n\0\0\0\0\0\0\0\0";

const CUT: LoadFault = LoadFault::Bundle(WholeFault::Bundle(BundleFault::Truncated));

const TRAILING: LoadFault = LoadFault::Bundle(WholeFault::Trailing);

// The bytes of a front, with others after them.
fn joined(alloc: Global, front: &[u8], later: &[u8]) -> Result<Vec<u8>, AllocError> {
    let mut bytes = front.to_vec(alloc)?;
    bytes.extend_from_slice(later)?;
    Ok(bytes)
}

fn assert_loads(rt: &impl Abort, alloc: Global, bytes: &[u8]) -> Result<(), Fail> {
    let replica = load(alloc, bytes)?;
    assert_eq!(rt; replica.name().text(), "ana");
    assert_eq!(rt; save(alloc, &replica)?.as_slice(), bytes);
    Ok(())
}

#[test]
fn created(rt: HostRuntime) -> Result<(), Fail> {
    let alloc = rt.alloc();
    assert_eq!(rt; create(alloc, "ana")?.as_slice(), ANA.as_slice());
    assert_eq!(rt; create(alloc, "Ana").err(), Some(CreateFault::BadName));
    Ok(())
}

#[test]
fn loaded_and_saved(rt: HostRuntime) -> Result<(), Fail> {
    let alloc = rt.alloc();
    assert_loads(&rt, alloc, &ANA)?;
    assert_loads(&rt, alloc, &joined(alloc, &ANA[..12], &B1)?)?;
    assert_loads(&rt, alloc, &joined(alloc, &ANA[..12], &V2)?)
}

#[test]
fn loaded_of_one_book(rt: HostRuntime) -> Result<(), Fail> {
    let alloc = rt.alloc();
    let of_two = joined(alloc, &ANA[..12], b"USFMSR1\n\0\0\0\0\0\0\0\x03")?;
    let of_two = joined(alloc, &joined(alloc, &of_two, &B1[16..])?, &RUTH)?;
    assert_loads(&rt, alloc, &of_two)?;
    let of_ruth = joined(alloc, &ANA[..12], b"USFMSR1\n\0\0\0\0\0\0\0\x01")?;
    for (book, wanted) in [
        ("MAT", &joined(alloc, &ANA[..12], &B1)?),
        ("RUT", &joined(alloc, &of_ruth, &RUTH)?),
        ("ACT", &ANA.to_vec(alloc)?),
    ] {
        let replica = load_book(alloc, &of_two, Book::read(book)?)?;
        assert_eq!(rt;
            save(alloc, &replica)?.as_slice(),
            wanted.as_slice(),
            "{book}"
        );
    }
    // What is wrong in another book is refused too.
    let Some((_, cut)) = of_two.split_last() else {
        return Err(Fail::from("a project's file is not empty"));
    };
    assert_eq!(rt; load_book(alloc, cut, Book::read("MAT")?).err(), Some(CUT));
    assert_eq!(rt;
        load_book(alloc, b"", Book::read("MAT")?).err(),
        Some(LoadFault::BadProject)
    );
    Ok(())
}

// Whether a bundle that a project receives gives this file, and has this many new operations.
fn is_received(
    alloc: Global,
    file: &[u8],
    bundle: &[u8],
    wanted: &[u8],
    new: u64,
) -> Result<bool, Fail> {
    let project = judge(alloc, file)?;
    let made = project.receive(alloc, &decode_whole(alloc, bundle)?)?;
    Ok(made.0.as_slice() == wanted && made.1 == new)
}

#[test]
fn received_on_the_bytes(rt: HostRuntime) -> Result<(), Fail> {
    let alloc = rt.alloc();
    let of_two = joined(alloc, &ANA[..12], &B1)?;
    let thinned = joined(alloc, &ANA[..12], b"USFMSR2\n\0\0\0\0\0\0\0\x03")?;
    let thinned = joined(alloc, &joined(alloc, &thinned, &B1[16..62])?, &V2[16..])?;
    assert!(rt; is_received(alloc, &ANA, &B1, &of_two, 2)?);
    assert!(rt; is_received(alloc, &of_two, &B1, &of_two, 0)?);
    assert!(rt; is_received(alloc, &of_two, &V2, &thinned, 1)?);
    Ok(())
}

#[test]
fn clash_on_the_bytes(rt: HostRuntime) -> Result<(), Fail> {
    let alloc = rt.alloc();
    let file = joined(alloc, &ANA[..12], &B1)?;
    let other = joined(alloc, &B1[..105], b"At\n")?;
    let made = judge(alloc, &file)?.receive(alloc, &decode_whole(alloc, &other)?);
    assert_eq!(rt; made.err(), Some(JoinFault::Clash(OpId::read("2:ana")?)));
    let Some((_, cut)) = file.split_last() else {
        return Err(Fail::from("a project's file is not empty"));
    };
    assert_eq!(rt; judge(alloc, cut).err(), Some(CUT));
    Ok(())
}

#[test]
fn bundle_in_the_bytes(rt: HostRuntime) -> Result<(), Fail> {
    let alloc = rt.alloc();
    for held in [&B1[..], &V2, &ANA[12..]] {
        let file = joined(alloc, &ANA[..12], held)?;
        assert_eq!(rt; judge(alloc, &file)?.bundle(), held);
    }
    Ok(())
}

#[test]
fn delta_on_the_bytes(rt: HostRuntime) -> Result<(), Fail> {
    let alloc = rt.alloc();
    let summary = Summary::read(alloc, &FIRST)?;
    let of_second = joined(alloc, b"USFMSR1\n\0\0\0\0\0\0\0\x01", &B1[62..])?;
    for (held, wanted) in [
        (&B1[..], &of_second[..]),
        (&V2, &V2),
        (&ANA[12..], &ANA[12..]),
    ] {
        let file = joined(alloc, &ANA[..12], held)?;
        let made = judge(alloc, &file)?.delta(alloc, &summary)?;
        assert_eq!(rt; made.as_slice(), wanted);
    }
    Ok(())
}

#[test]
fn summary_of_the_bytes(rt: HostRuntime) -> Result<(), Fail> {
    let alloc = rt.alloc();
    let first = joined(alloc, b"USFMSR1\n\0\0\0\0\0\0\0\x01", &B1[16..62])?;
    for (held, wanted) in [(&first[..], &FIRST[..]), (&ANA[12..], NO_NAMES)] {
        let file = joined(alloc, &ANA[..12], held)?;
        let summary = judge(alloc, &file)?.summary(alloc)?;
        assert_eq!(rt; summary.write(alloc)?.as_slice(), wanted);
    }
    Ok(())
}

// Whether a project thins to this file, and leaves this many texts out.
fn thins_to(alloc: Global, file: &[u8], wanted: &[u8], left_out: u64) -> Result<bool, Fail> {
    let made = judge(alloc, file)?.thin(alloc)?;
    Ok(made.0.as_slice() == wanted && made.1 == left_out)
}

#[test]
fn thinned_on_the_bytes(rt: HostRuntime) -> Result<(), Fail> {
    let alloc = rt.alloc();
    let full = joined(alloc, &ANA[..12], b"USFMSR1\n\0\0\0\0\0\0\0\x03")?;
    let full = joined(alloc, &joined(alloc, &full, &B1[16..])?, &V2[46..])?;
    let thinned = joined(alloc, &ANA[..12], b"USFMSR2\n\0\0\0\0\0\0\0\x03")?;
    let thinned = joined(alloc, &joined(alloc, &thinned, &B1[16..62])?, &V2[16..])?;
    assert!(rt; thins_to(alloc, &full, &thinned, 1)?);
    assert!(rt; thins_to(alloc, &thinned, &thinned, 0)?);
    let of_two = joined(alloc, &ANA[..12], &B1)?;
    assert!(rt; thins_to(alloc, &of_two, &of_two, 0)?);
    assert!(rt; thins_to(alloc, &ANA, &ANA, 0)?);
    Ok(())
}

#[test]
fn thinned_and_not_named(rt: HostRuntime) -> Result<(), Fail> {
    let alloc = rt.alloc();
    let of_one = joined(alloc, &ANA[..12], b"USFMSR2\n\0\0\0\0\0\0\0\x01")?;
    let alone = joined(alloc, &of_one, &V2[16..46])?;
    let of_none = joined(alloc, &ANA[..12], b"USFMSR2\n\0\0\0\0\0\0\0\0")?;
    for (bytes, place) in [(&alone, 1), (&of_none, 0)] {
        let unsupported = LoadFault::Bundle(WholeFault::Bundle(BundleFault::Unsupported(place)));
        assert_eq!(rt; load(alloc, bytes).err(), Some(unsupported));
    }
    Ok(())
}

#[test]
fn cut_or_longer(rt: HostRuntime) -> Result<(), Fail> {
    let alloc = rt.alloc();
    for length in 0..28 {
        let wanted = if length < 12 {
            LoadFault::BadProject
        } else {
            CUT
        };
        assert_eq!(rt; load(alloc, &ANA[..length]).err(), Some(wanted));
    }
    let longer = joined(alloc, &ANA, &[0])?;
    assert_eq!(rt; load(alloc, &longer).err(), Some(TRAILING));
    Ok(())
}

#[test]
fn other_fronts(rt: HostRuntime) -> Result<(), Fail> {
    let alloc = rt.alloc();
    let longest = joined(alloc, b"USFMPJ1\n\x20", &[b'a'; 32])?;
    assert!(rt; load(alloc, &joined(alloc, &longest, &ANA[12..])?).is_ok());
    let too_long = joined(alloc, b"USFMPJ1\n\x21", &[b'a'; 33])?;
    for front in [
        b"USFMPJ2\n\x03ana".as_slice(),
        b"USFMPJ1\n\0",
        b"USFMPJ1\n\x03aNa",
        b"USFMPJ1\n\x03a\xc3\xa9",
        &too_long,
    ] {
        let bytes = joined(alloc, front, &ANA[12..])?;
        assert_eq!(rt; load(alloc, &bytes).err(), Some(LoadFault::BadProject));
    }
    Ok(())
}
