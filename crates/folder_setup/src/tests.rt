use super::*;
use std::process::Abort;
use std::test::Fail;

#[test]
fn reads_and_writes(rt: HostRuntime) -> Result<(), Fail> {
    let text = "project ../ana texts.project\nbox /media/stick\nnames 41MATana.SFM\n";
    let setup = read(text)?;
    assert_eq!(rt; setup.project, "../ana texts.project");
    assert!(rt; setup.box_folder == Some("/media/stick"));
    assert!(rt; setup.names == Some("41MATana.SFM"));
    assert_eq!(rt; spelled(rt.alloc(), &setup)?.as_str(), text);
    let least = Setup {
        project: " \r\t\u{e9}",
        box_folder: None,
        names: None,
    };
    assert_eq!(rt;
        spelled(rt.alloc(), &least)?.as_str(),
        "project  \r\t\u{e9}\n"
    );
    Ok(())
}

// That a text is refused for the line.
fn check_line(rt: &impl Abort, text: &str, wanted: usize) {
    match read(text) {
        Ok(_) => panic!(rt; "line {wanted} has to be refused"),
        Err(SetupFault::BadLine { line }) => assert_eq!(rt; line, wanted),
    }
}

#[test]
fn tells_the_first_bad_line(rt: HostRuntime) {
    for (text, line) in [
        ("", 1),
        ("\n", 1),
        ("project p", 1),
        ("project \n", 1),
        ("Project p\n", 1),
        ("box b\nproject p\n", 1),
        ("project p\0\n", 1),
        ("project p\n\n", 2),
        ("project p\nbox b", 2),
        ("project p\nproject q\n", 2),
        ("project p\nnames n\nbox b\n", 3),
        ("project p\nbox b\nbox c\n", 3),
        ("project p\nbox b\nnames n\nx", 4),
    ] {
        check_line(&rt, text, line);
    }
}

#[test]
fn refuses_what_no_line_can_have(rt: HostRuntime) {
    for value in ["", "a\nb", "a\0"] {
        let setup = Setup {
            project: "p",
            box_folder: Some(value),
            names: None,
        };
        match spelled(rt.alloc(), &setup) {
            Err(SpellFault::BadValue) => {}
            _ => panic!(rt; "it has to be refused"),
        }
    }
}

#[test]
fn names_paths(rt: HostRuntime) -> Result<(), Fail> {
    let alloc = rt.alloc();
    for (folder, path, wanted) in [
        (".", "../t.project", "../t.project"),
        ("t", "../t.project", "t/../t.project"),
        ("/", "t", "/t"),
        ("t", "/stick", "/stick"),
    ] {
        assert_eq!(rt; path_in(alloc, folder, path)?.as_str(), wanted);
    }
    for (folder, here, path, wanted) in [
        ("/h/t", "/h", "stick", "../stick"),
        ("/h/t", "/h/t", "../stick", "../stick"),
        ("/h/a/t", "/h/b", "s", "../../b/s"),
        ("/", "/h", "s", "h/s"),
        ("/h", "/", "s", "../s"),
        ("/h/t", "/h/tt", "s", "../tt/s"),
        ("/h/t", "/h", "/s", "/s"),
    ] {
        assert_eq!(rt; path_from(alloc, folder, here, path)?.as_str(), wanted);
    }
    for (folder, path, wanted) in [
        ("/h/t", "/h/t", true),
        ("/h/t", "/h/t/box", true),
        ("/h/t", "/h/tt", false),
        ("/h/t", "/h", false),
        ("/", "/h", true),
    ] {
        assert_eq!(rt; is_within(alloc, folder, path)?, wanted);
    }
    Ok(())
}
