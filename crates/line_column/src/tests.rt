use super::*;

#[test]
fn places_of_offsets(rt: HostRuntime) {
    let text = "\u{feff}\\id MAT\r\n\\v 1 ä€ 𝄞b\n\n".as_bytes();
    let mut walk = Walk::new(text);
    for (offset, line, column) in [
        (0, 1, 1),
        (3, 1, 1),
        (10, 1, 8),
        (11, 1, 9),
        (12, 2, 1),
        (17, 2, 6),
        (19, 2, 7),
        (22, 2, 8),
        (23, 2, 9),
        (27, 2, 10),
        (29, 3, 1),
        (30, 4, 1),
        (99, 4, 1),
        (17, 2, 6),
    ] {
        assert_eq!(rt; walk.place(offset), Place { line, column }, "{offset}");
    }
}
