use action::deed::Deed;
use machine::accepts::accepts;
use sheet::sheet::Sheet;
use sheet_file::load::load_sheet;
use sheet_watch::rehearsal::rehearse;
use sheet_watch::watching::SheetWatch;
use std::test::Fail;

// The seq of the neg of a step of signal 3 and a step of signal 4.
const SHEET: [u8; 40] = [
    4, 2, 0, 0, 1, 5, 1, 2, 0, 3, 0, 0, 0, 0, 0, 0, 0, 0, 0, 0, 0, 0, 0, 0, 0, 4, 0, 0, 0, 0, 0, 0,
    1, 2, 0, 0, 0, 0, 0, 0,
];

#[test]
fn negative_traces(rt: HostRuntime) -> Result<(), Fail> {
    let mut sheet = Sheet::blank();
    load_sheet(&SHEET, &mut sheet)?;
    let three = Deed::reading(0, 3, 0, 0);
    let four = Deed::reading(0, 4, 0, 0);
    assert!(rt; !accepts(&sheet, &[]), "the empty list");
    assert!(rt; !accepts(&sheet, &[three]), "the neg alone");
    assert!(rt; accepts(&sheet, &[three, four]));
    assert!(rt; !accepts(&sheet, &[four, three]));
    assert!(rt;
        !accepts(&sheet, &[three, three, four]),
        "forbidden, and no negative trace"
    );
    Ok(())
}

#[test]
fn rehearsals(rt: HostRuntime) -> Result<(), Fail> {
    let mut sheet = Sheet::blank();
    load_sheet(&SHEET, &mut sheet)?;
    let three = Deed::reading(0, 3, 0, 0);
    let four = Deed::reading(0, 4, 0, 0);
    let mut watch = SheetWatch::new(&sheet);
    assert_eq!(rt; rehearse(&mut watch, &[]), 0);
    assert_eq!(rt; rehearse(&mut watch, &[four, three, three, four, three]), 3);
    assert_eq!(rt; rehearse(&mut watch, &[four, three, three]), 3);
    assert_eq!(rt; rehearse(&mut watch, &[four]), 1, "the watch is as it was");
    Ok(())
}
