use crate::told::told;
use action::action::Action;
use action::call::Call;
use action::deed::Deed;
use action::kind::Kind;
use action::partner::Partner;
use std::test::Fail;

#[test]
fn deeds(rt: HostRuntime) {
    assert_eq!(rt; told(Deed::from_bytes(&[7, 31, 15, 15])), (0, 0));
    assert_eq!(rt; told(Deed::from_bytes(&[0, 3, 1])), (12, 0));
    assert_eq!(rt; told(Deed::from_bytes(&[0, 3, 1, 2, 0])), (12, 0));
    assert_eq!(rt; told(Deed::from_bytes(&[8, 32, 16, 16])), (12, 0));
    assert_eq!(rt; told(Deed::from_bytes(&[7, 32, 16, 16])), (12, 1));
    assert_eq!(rt; told(Deed::from_bytes(&[7, 31, 16, 16])), (12, 2));
    assert_eq!(rt; told(Deed::from_bytes(&[7, 31, 15, 16])), (12, 3));
}

#[test]
fn calls(rt: HostRuntime) {
    assert_eq!(rt; told(Call::from_bytes(&[31, 7, 15, 15, 15])), (0, 0));
    assert_eq!(rt; told(Call::from_bytes(&[])), (12, 0));
    assert_eq!(rt; told(Call::from_bytes(&[31, 7, 15, 15])), (12, 0));
    assert_eq!(rt; told(Call::from_bytes(&[32, 8, 0, 0, 0])), (12, 0));
    assert_eq!(rt; told(Call::from_bytes(&[31, 8, 0, 0, 0])), (12, 1));
    assert_eq!(rt; told(Call::from_bytes(&[31, 7, 15, 15, 16])), (12, 4));
}

#[test]
fn parts(rt: HostRuntime) -> Result<(), Fail> {
    let Ok(deed) = Deed::from_bytes(&[6, 30, 1, 14]) else {
        return Err(Fail::new("the deed is good"));
    };
    assert_eq!(rt; deed.address(), 6);
    assert_eq!(rt; deed.partner().value(), 6);
    assert_eq!(rt; deed.signal(), 30);
    assert_eq!(rt; deed.kind().value(), 30);
    assert_eq!(rt; deed.first(), 1);
    assert_eq!(rt; deed.second(), 14);
    let Ok(call) = Call::from_bytes(&[29, 5, 1, 2, 3]) else {
        return Err(Fail::new("the call is good"));
    };
    assert_eq!(rt; call.kind().value(), 29);
    assert_eq!(rt; call.form(), 5);
    assert_eq!(rt; call.first(), 1);
    assert_eq!(rt; call.second(), 2);
    assert_eq!(rt; call.third(), 3);
    Ok(())
}

#[test]
fn kinds_and_partners(rt: HostRuntime) {
    assert_eq!(rt; told(Kind::try_from(31)), (0, 0));
    assert_eq!(rt; told(Kind::try_from(32)), (13, 0));
    assert_eq!(rt; told(Partner::try_from(7)), (0, 0));
    assert_eq!(rt; told(Partner::try_from(8)), (13, 0));
}
