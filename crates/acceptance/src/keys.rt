// Places of accounts and of bond codes.
use register::registers::Register;
use std::test::Fail;
use terms::calls::BondCode;

#[test]
fn accounts(rt: HostRuntime) -> Result<(), Fail> {
    let accounts = Register::<u32, 8>::new(&[0, 10, 11, 20, 4_294_967_295]).ok_or("a rising list")?;
    assert!(rt; accounts.place(&0) == Some(0));
    assert!(rt; accounts.place(&11) == Some(2));
    assert!(rt; accounts.place(&4_294_967_295) == Some(4));
    assert!(rt; accounts.place(&12) == None);
    assert!(rt; Register::<u32, 2>::new(&[1, 2]).is_some());
    assert!(rt; Register::<u32, 2>::new(&[1, 2, 3]).is_none());
    assert!(rt; Register::<u32, 8>::new(&[1, 1]).is_none());
    assert!(rt; Register::<u32, 8>::new(&[2, 1]).is_none());
    assert!(rt; Register::<u32, 8>::new(&[]).is_none());
    Ok(())
}

fn code(first: u8, last: u8) -> BondCode {
    BondCode {
        bytes: [first, 65, 65, 65, 65, 65, 65, last],
    }
}

#[test]
fn codes(rt: HostRuntime) -> Result<(), Fail> {
    let bonds = Register::<BondCode, 64>::new(&[code(65, 200), code(66, 10), code(66, 11)]).ok_or(
        "a rising list",
    )?;
    assert!(rt; bonds.place(&code(65, 200)) == Some(0));
    assert!(rt; bonds.place(&code(66, 11)) == Some(2));
    assert!(rt; bonds.place(&code(65, 10)) == None);
    assert!(rt; Register::<BondCode, 64>::new(&[code(66, 10), code(65, 200)]).is_none());
    Ok(())
}
