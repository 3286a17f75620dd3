// Names as people and carriers give them.
use crate::{BoxName, box_name};

#[test]
fn takes_bundles(rt: HostRuntime) {
    for name in [
        "ben.bundle",
        "BEN.BUNDLE",
        "ben (1).bundle",
        "ben.sync-conflict-2.bundle",
    ] {
        assert_eq!(rt; box_name(name), BoxName::Bundle);
    }
    assert_eq!(rt; box_name("ben\n.bundle"), BoxName::Broken);
}

#[test]
fn says_what_was_meant(rt: HostRuntime) {
    let renamed = [
        "ben.bundle.1",
        "ben.bundle.zip",
        "ben (1).bundle.txt",
        "BEN.BUNDLE.TXT",
    ];
    for name in renamed {
        assert_eq!(rt; box_name(name), BoxName::Renamed);
    }
    for name in ["ben", "bundle", "ben bundle", ""] {
        assert_eq!(rt; box_name(name), BoxName::NoEnding);
    }
}

#[test]
fn passes_over_what_carriers_leave(rt: HostRuntime) {
    let own = [
        ".syncthing.ben.bundle.tmp",
        ".stfolder",
        ".ben.bundle",
        "~syncthing~ben.bundle",
        "~ben",
        "ben.bundle.tmp",
        "ben.bundle.PART",
        "ben.bundle.partial",
        "readme.txt",
        "ben.summary",
    ];
    for name in own {
        assert_eq!(rt; box_name(name), BoxName::Other);
    }
}
