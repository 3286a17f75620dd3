// Pages about small projects.
use crate::{page, page_bytes, parts_of};
use op_core::ReplicaName;
use replica_state::Replica;
use std::alloc::Global;
use std::process::Abort;
use std::test::Fail;
use usfm_ref::read_ref;
use versification::Versification;

// A replica in which a verse has these two texts, the second one twice.
fn in_conflict(alloc: Global, one: &str, other: &str) -> Result<Replica, Fail> {
    let mut ana = Replica::new(alloc, ReplicaName::read("ana")?);
    ana.import("\\id MAT\n\\c 1\n\\p\n\\v 1 In it\n\\v 2 So\n")?;
    let (book, key) = read_ref("MAT 1:1")?;
    ana.edit(book, key, other)?;
    ana.edit_over(book, key, one, &[])?;
    ana.edit_over(book, key, other, &[])?;
    Ok(ana)
}

// The page about such a replica.
fn page_of(alloc: Global, one: &str, other: &str) -> Result<Vec<u8>, Fail> {
    let versification = Versification::read(alloc, b"")?;
    Ok(page(alloc, &versification, &in_conflict(alloc, one, other)?)?)
}

fn has(page: &[u8], needle: &str) -> bool {
    str::from_utf8(page).is_ok_and(|page| page.contains(needle))
}

#[test]
fn a_conflict_side_by_side(rt: HostRuntime) -> Result<(), Fail> {
    let page = page_of(rt.alloc(), "\\v 1 At it\n", "\\v 1 In it\n")?;
    let wanted = r#"<h2 id="conflicts">Conflicts: 1</h2>
<fieldset data-ids=" 7:ana 6:ana 5:ana">
<legend><h3>MAT 1:1</h3></legend>
<h4>Before it</h4>
<p class="said near" dir="auto" lang="und"><bdi>\c</bdi> 1
<bdi>\p</bdi>
</p>
<div class="texts">
<div><label><input type="checkbox">Text 1</label>
<p class="by">by ana, operation 7</p>
<p class="picked">In the book</p>
<p class="said" dir="auto" lang="und"><bdi>\v</bdi> 1 <mark>In</mark> it
</p>
</div>
<div><label><input type="checkbox">Text 2</label>
<p class="by">by ana, operation 6</p>
<p class="said" dir="auto" lang="und"><bdi>\v</bdi> 1 <mark>At</mark> it
</p>
</div>
</div>
<p class="by">One of these texts too by ana, operation 5</p>
<h4>After it</h4>
<p class="said near" dir="auto" lang="und"><bdi>\v</bdi> 2 So
</p>
</fieldset>
<h2 id="awaited">Awaited: 0</h2>
<script>
"#;
    assert!(rt; has(&page, wanted));
    assert!(rt; page.ends_with(b"</script>\n</body>\n</html>\n"));
    assert!(rt; has(&page, "<dt>Texts by ana</dt><dd>6</dd>\n"));
    assert!(rt; has(&page, "<dt>Texts replaced</dt><dd>1</dd>\n"));
    assert!(rt;
        has(
            &page,
            "<tr><th scope=\"row\">MAT</th><td>\n<span class=\"chapter all\">1<span class=\"count\">: 2 of 2</span></span>\n</td></tr>\n"
        )
    );
    Ok(())
}

#[test]
fn texts_are_no_markup(rt: HostRuntime) -> Result<(), Fail> {
    let page = page_of(
        rt.alloc(),
        "\\v 1 <b onclick='x'>\"&amp;\"</b>\n",
        "\\v 1 \u{5d1}\u{5e8}\x1b[7m\u{9b}\t\u{a0}\n",
    )?;
    assert!(rt;
        has(
            &page,
            "&lt;b</mark> <mark>onclick=&#39;x&#39;&gt;&quot;&amp;amp;&quot;&lt;/b&gt;"
        ) || has(
            &page,
            "&lt;b onclick=&#39;x&#39;&gt;&quot;&amp;amp;&quot;&lt;/b&gt;"
        )
    );
    assert!(rt; !has(&page, "<b "));
    assert!(rt; has(&page, "\u{5d1}\u{5e8}\\x1b[7m\\x9b"));
    assert!(rt; has(&page, "\\x09\u{a0}"));
    Ok(())
}

#[test]
fn characters_that_no_page_may_have(rt: HostRuntime) -> Result<(), Fail> {
    let page = page_of(
        rt.alloc(),
        "\\v 1 \u{202e}a\u{2069} \u{fdcf}\u{fdd0}\u{fdef}\u{fdf0}\n",
        "\\v 1 \u{fffd}\u{fffe}\u{ffff}\u{1fffe}\u{10ffff}\u{10fffd}\n",
    )?;
    assert!(rt; has(&page, "\\u202ea\\u2069"));
    assert!(rt; has(&page, "\u{fdcf}\u{fffd}\u{fffd}\u{fdf0}"));
    assert!(rt; has(&page, "\u{fffd}\u{fffd}\u{fffd}\u{fffd}\u{fffd}\u{10fffd}"));
    Ok(())
}

#[test]
fn line_ends_that_differ(rt: HostRuntime) -> Result<(), Fail> {
    let page = page_of(rt.alloc(), "\\v 1 At it\r\n", "\\v 1 At it\n")?;
    assert!(rt; has(&page, "<bdi>\\v</bdi> 1 At it<mark>\\x0d\n</mark>"));
    assert!(rt; has(&page, "<bdi>\\v</bdi> 1 At it<mark>\n</mark>"));
    Ok(())
}

#[test]
fn nothing_is_held(rt: HostRuntime) -> Result<(), Fail> {
    let alloc = rt.alloc();
    let ana = Replica::new(alloc, ReplicaName::read("ana")?);
    let versification = Versification::read(alloc, b"MAT 1:25 2:23\n")?;
    let parts = parts_of(alloc, &versification, &ana)?;
    let page = page_bytes(alloc, &parts)?;
    assert!(rt; page.starts_with(b"<!DOCTYPE html>\n<html lang=\"en\">\n"));
    assert!(rt; has(&page, "<title>How the copy of ana stands</title>"));
    assert!(rt; has(&page, "<dt>Books</dt><dd>0</dd>\n"));
    assert!(rt;
        has(
            &page,
            "</table>\n<h2 id=\"conflicts\">Conflicts: 0</h2>\n<h2 id=\"awaited\">Awaited: 0</h2>\n<script>\n"
        )
    );
    Ok(())
}
