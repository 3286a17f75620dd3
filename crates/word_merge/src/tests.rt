// Changes of one text, joined.
use crate::both_changes;
use std::alloc::Global;
use std::process::Abort;
use std::test::Fail;

fn check(
    rt: &impl Abort,
    alloc: Global,
    common: &str,
    one: &str,
    other: &str,
    wanted: Option<&str>,
) -> Result<(), Fail> {
    let both = both_changes(alloc, common, one, other)?;
    assert_eq!(rt; both.as_deref(), wanted, "{one} {other}");
    Ok(())
}

#[test]
fn changes_of_two_places(rt: HostRuntime) -> Result<(), Fail> {
    let alloc = rt.alloc();
    let common = "\\v 1 Saul went down\n";
    check(
        &rt,
        alloc,
        common,
        "\\v 1 Paul went down\n",
        "\\v 1 Saul went up\n",
        Some("\\v 1 Paul went up\n"),
    )?;
    check(
        &rt,
        alloc,
        common,
        "\\v 1 went down\n",
        "\\v 1 Saul went down.\n",
        Some("\\v 1 went down.\n"),
    )?;
    check(
        &rt,
        alloc,
        common,
        "\\v 1 Then Saul went down\n",
        "\\v 1 Saul went\n",
        Some("\\v 1 Then Saul went\n"),
    )?;
    check(
        &rt,
        alloc,
        common,
        common,
        "\\v 1 Saul\n",
        Some("\\v 1 Saul\n"),
    )?;
    check(&rt, alloc, "", "", "", Some(""))
}

#[test]
fn changes_of_one_place(rt: HostRuntime) -> Result<(), Fail> {
    let alloc = rt.alloc();
    let common = "\\v 1 Saul went\n";
    check(
        &rt,
        alloc,
        common,
        "\\v 1 Paul went\n",
        "\\v 1 Peter went\n",
        None,
    )?;
    check(
        &rt,
        alloc,
        common,
        "\\v 1 Paul went\n",
        "\\v 1 Paul went\n",
        None,
    )?;
    check(
        &rt,
        alloc,
        common,
        "\\v 1 Then Saul went\n",
        "\\v 1 So Saul went\n",
        None,
    )?;
    check(&rt, alloc, common, "\\v 1 Saul ran\n", "\\v 1 Saul\n", None)
}
