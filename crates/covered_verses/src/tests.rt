use super::*;

#[test]
fn bridges_and_parts_are_covered(rt: HostRuntime) {
    for (letter, text, last, last_letter, written) in [
        (None, "\\v 3 In the", 3, None, true),
        (None, "\\v 3-5 In", 5, None, true),
        (Some(b'b'), "\\v 3b-4a\n", 4, Some(b'a'), false),
        (Some(b'a'), "\\v 3a \\p\n", 3, Some(b'a'), false),
        (None, "\\v 3-2 \\nd LORD\\nd*", 3, None, true),
        (None, "\\v 3-3a\n", 3, None, false),
        (None, "\\v 3", 3, None, false),
    ] {
        let wanted = Covered {
            first: 3,
            letter,
            last,
            last_letter,
            written,
        };
        assert_eq!(rt; covered_by(3, letter, text), wanted, "{text}");
    }
}
