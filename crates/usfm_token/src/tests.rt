use super::*;
use std::alloc::{AllocError, Global};
use std::process::Abort;

// That the tokens of a text have these slices, in the list and by the iterator.
fn check_cut(
    rt: &impl Abort,
    alloc: Global,
    text: &str,
    slices: &[&str],
) -> Result<(), AllocError> {
    let list = tokens(alloc, text)?;
    assert_eq!(rt; list.len(), slices.len(), "{text}");
    let mut items = TokenIter::new(text);
    for (token, slice) in list.iter().zip(slices) {
        assert_eq!(rt; token.slice(), *slice);
        assert_eq!(rt; items.next(), Some(*token));
    }
    assert_eq!(rt; items.rest(), "");
    Ok(())
}

#[test]
fn cuts_texts(rt: HostRuntime) -> Result<(), AllocError> {
    let alloc = rt.alloc();
    check_cut(&rt, alloc, "\\nd LORD\\nd*", &["\\nd", " LORD", "\\nd*"])?;
    check_cut(
        &rt,
        alloc,
        "  a\r\n\t\\p\r\n",
        &["  a\r\n\t", "\\p", "\r\n"],
    )?;
    check_cut(&rt, alloc, "\\*\\", &["\\*", "\\"])?;
    check_cut(&rt, alloc, "\\\\+nd*x*", &["\\", "\\+nd*", "x*"])?;
    check_cut(&rt, alloc, "\\qt-s_1é", &["\\qt-s_1", "é"])?;
    check_cut(&rt, alloc, "", &[])
}

#[test]
fn reads_marks(rt: HostRuntime) {
    let rows = [
        ("\\nd", "nd", false, false),
        ("\\nd*", "nd", false, true),
        ("\\+nd*", "nd", true, true),
        ("\\*", "", false, true),
        ("\\", "", false, false),
    ];
    for (text, name, nested, closing) in rows {
        match TokenIter::new(text).next() {
            Some(Token::Mark(mark)) => {
                assert_eq!(rt; mark.slice(), text);
                assert_eq!(rt; mark.name(), name);
                assert_eq!(rt; mark.nested(), nested);
                assert_eq!(rt; mark.closing(), closing);
            }
            _ => panic!(rt; "no mark in {text}"),
        }
    }
}

#[test]
fn reads_utf8(rt: HostRuntime) {
    assert_eq!(rt; read_text(b"a\xc3\xa9"), Ok("aé"));
    assert_eq!(rt;
        read_text(b"\x61\xff"),
        Err(TokenFault::NotUtf8 { valid: 1 })
    );
}
