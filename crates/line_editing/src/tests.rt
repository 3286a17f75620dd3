// Lines of texts that are edited.
use crate::{LineAnswer, TextLine, line_answer, split_line};

#[test]
fn a_typed_line_answers(rt: HostRuntime) {
    assert_eq!(rt; line_answer(""), LineAnswer::Keep);
    assert_eq!(rt; line_answer("-"), LineAnswer::LeaveOut);
    assert_eq!(rt; line_answer("+ "), LineAnswer::Add(""));
    assert_eq!(rt; line_answer("+x"), LineAnswer::Replace("+x"));
    assert_eq!(rt; line_answer("--"), LineAnswer::Replace("--"));
    assert_eq!(rt; line_answer(" "), LineAnswer::Replace(" "));
}

#[test]
fn a_line_has_its_end(rt: HostRuntime) {
    assert_eq!(rt; split_line(""), None);
    let line = TextLine {
        body: "",
        end: "\r\n",
    };
    assert_eq!(rt; split_line("\r\n\n"), Some((line, "\n")));
}
