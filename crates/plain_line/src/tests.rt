use crate::{CarriageReturn, is_plain, push_bytes, push_line, push_lines, push_text};
use std::alloc::{AllocError, Global};
use std::process::Abort;

fn line(alloc: Global, text: &str) -> Result<String, AllocError> {
    let mut line = String::from_str(alloc, "in ")?;
    push_line(&mut line, text)?;
    Ok(line)
}

#[test]
fn a_line_has_no_control_character(rt: HostRuntime) -> Result<(), AllocError> {
    let made = line(rt.alloc(), "a\u{1b}[2J\n\u{7f}\u{9b}b")?;
    assert_eq!(rt; made.as_str(), "in a\\x1b[2J\\x0a\\x7f\\x9bb");
    let made = line(
        rt.alloc(),
        "\u{202a}\u{202e}\u{2066}\u{2069}\u{200f}\u{2065}\u{206a}",
    )?;
    assert_eq!(rt;
        made.as_str(),
        "in \\u202a\\u202e\\u2066\\u2069\u{200f}\u{2065}\u{206a}"
    );
    let made = line(rt.alloc(), "\u{a0}\u{5d0}\\v 1")?;
    assert_eq!(rt; made.as_str(), "in \u{a0}\u{5d0}\\v 1");
    Ok(())
}

#[test]
fn lines_keep_line_feeds_and_tabs(rt: HostRuntime) -> Result<(), AllocError> {
    let mut lines = String::new(rt.alloc());
    push_lines(&mut lines, "a\tb\r\nc\u{0}\n")?;
    assert_eq!(rt; lines.as_str(), "a\tb\\x0d\nc\\x00\n");
    Ok(())
}

#[test]
fn a_text_keeps_line_feeds_alone(rt: HostRuntime) -> Result<(), AllocError> {
    let text = "a\r\n\t\u{9b}\rb\r";
    let mut lines = String::new(rt.alloc());
    push_text(&mut lines, text, CarriageReturn::LeftOut)?;
    assert_eq!(rt; lines.as_str(), "a\n\\x09\\x9b\\x0db\\x0d");
    lines.clear();
    push_text(&mut lines, text, CarriageReturn::Spelled)?;
    assert_eq!(rt; lines.as_str(), "a\\x0d\n\\x09\\x9b\\x0db\\x0d");
    Ok(())
}

#[test]
fn bytes_need_not_be_a_text(rt: HostRuntime) -> Result<(), AllocError> {
    let mut line = Vec::new(rt.alloc());
    push_bytes(&mut line, b"a\x1b\xc2\x9b\xc2")?;
    assert_eq!(rt; line.as_slice(), "a\\x1b\\x9b\u{fffd}".as_bytes());
    Ok(())
}

#[test]
fn what_is_plain(rt: HostRuntime) {
    assert!(rt; is_plain(""));
    assert!(rt; is_plain("ana\u{5d0}"));
    assert!(rt; !is_plain("ana\tb"));
    assert!(rt; !is_plain("\u{85}"));
    assert!(rt; !is_plain("a\u{202e}b"));
    assert!(rt; is_plain("\u{200f}"));
}
