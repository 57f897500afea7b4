// Records there and back, and each way in which bytes are no record.
use crate::answers::number;
use record::calls::{read_call, write_call};
use record::rows::{read_row, write_row};
use std::process::Abort;
use std::test::Fail;
use terms::calls::{BondCode, BondLots, Call};
use terms::rows::{Class, Row};

fn bond(letter: u8, lots: u32) -> BondLots {
    BondLots {
        bond: BondCode { bytes: [letter; 8] },
        lots,
    }
}

fn sale() -> Call {
    Call::DeclareSale {
        minute: 510,
        account: 10,
        lots: 9,
        bonds: [bond(65, 7), bond(66, 3), bond(0, 0), bond(0, 0)],
    }
}

// Written, it has the letter; read, it is the same, and so is what is written again.
fn call_there_and_back(rt: &impl Abort, call: Call, letter: u8) -> Result<(), Fail> {
    let bytes = write_call(&call).ok_or("a call without a record")?;
    assert_eq!(rt; bytes[0], letter);
    let read = read_call(&bytes).map_err(|_| "refused")?;
    assert!(rt; read == call);
    let again = write_call(&read).ok_or("a call without a record")?;
    assert!(rt; again == bytes);
    Ok(())
}

#[test]
fn every_call(rt: HostRuntime) -> Result<(), Fail> {
    call_there_and_back(
        &rt,
        Call::Trade {
            buyer: 20,
            seller: 40,
            lots: 1,
        },
        b'T',
    )?;
    call_there_and_back(
        &rt,
        Call::DeclarePurchase {
            minute: 510,
            account: 40,
            lots: 4,
        },
        b'B',
    )?;
    call_there_and_back(&rt, sale(), b'S')?;
    call_there_and_back(
        &rt,
        Call::Withdraw {
            minute: 990,
            account: 4_294_967_295,
        },
        b'W',
    )?;
    call_there_and_back(&rt, Call::OpenTrial, b'O')?;
    call_there_and_back(&rt, Call::KeepTrial, b'K')?;
    call_there_and_back(&rt, Call::DropTrial, b'X')?;
    call_there_and_back(&rt, Call::Draw, b'R')?;
    call_there_and_back(&rt, Call::NextDay, b'N')?;
    call_there_and_back(
        &rt,
        Call::LegResult {
            leg: 3,
            mark: 1,
            unfinished: 2,
        },
        b'E',
    )?;
    assert!(rt; write_call(&Call::Preview { day: 20_090 }).is_none());
    Ok(())
}

fn row_there_and_back(rt: &impl Abort, row: Row, letter: u8) -> Result<(), Fail> {
    let bytes = write_row(&row);
    assert_eq!(rt; bytes[0], letter);
    let read = read_row(&bytes).map_err(|_| "refused")?;
    assert!(rt; read == row);
    assert!(rt; write_row(&read) == bytes);
    Ok(())
}

fn lots_of(class: Class) -> Row {
    Row::ClassLots {
        class,
        account: 40,
        day: 20_060,
        lots: 4,
    }
}

fn leg(bond: Option<BondCode>) -> Row {
    Row::Leg {
        seller: 11,
        buyer: 30,
        lots: 6,
        bond,
    }
}

#[test]
fn every_row(rt: HostRuntime) -> Result<(), Fail> {
    row_there_and_back(&rt, lots_of(Class::Declared), b'D')?;
    row_there_and_back(&rt, lots_of(Class::Undeclared), b'U')?;
    row_there_and_back(&rt, lots_of(Class::Virtual), b'V')?;
    row_there_and_back(
        &rt,
        leg(Some(BondCode {
            bytes: *b"AAAAAAAA",
        })),
        b'L',
    )?;
    row_there_and_back(&rt, leg(None), b'L')?;
    row_there_and_back(&rt, Row::Refused { number: 30 }, b'Z')
}

// The bytes of a sale declaration, each where it belongs.
#[test]
fn places(rt: HostRuntime) -> Result<(), Fail> {
    let bytes = write_call(&sale()).ok_or("a call without a record")?;
    let mut expected = [0u8; 64];
    expected[0] = b'S';
    expected[2] = 254;
    expected[3] = 1;
    expected[4] = 10;
    expected[8] = 9;
    expected[16..24].fill(65);
    expected[24] = 7;
    expected[28..36].fill(66);
    expected[36] = 3;
    assert!(rt; bytes == expected);
    Ok(())
}

#[test]
fn refused_calls(rt: HostRuntime) -> Result<(), Fail> {
    let bytes = write_call(&Call::OpenTrial).ok_or("a call without a record")?;
    assert_eq!(rt; number(read_call(&bytes)), 0);
    assert_eq!(rt; number(read_call(&bytes[0..63])), 1);
    assert_eq!(rt; number(read_call(&[])), 1);
    assert_eq!(rt; number(read_call(&[79; 65])), 1);
    assert_eq!(rt;
        number(read_call(&write_row(&Row::Refused { number: 3 }))),
        2
    );
    // each place in turn, in a copy of its own
    for i in 1..64 {
        let mut other = bytes;
        other[i] = 1;
        assert_eq!(rt; number(read_call(&other)), 3);
    }
    Ok(())
}

#[test]
fn refused_rows(rt: HostRuntime) -> Result<(), Fail> {
    let bytes = write_row(&Row::Leg {
        seller: 11,
        buyer: 30,
        lots: 6,
        bond: None,
    });
    assert_eq!(rt; number(read_row(&bytes[1..64])), 1);
    assert_eq!(rt;
        number(read_row(&write_call(&sale()).ok_or("a call without a record")?)),
        2
    );
    let mut other = bytes;
    other[24] = 5;
    assert_eq!(rt; number(read_row(&other)), 3);
    other[24] = 6;
    assert_eq!(rt; number(read_row(&other)), 0);
    other[36] = 1;
    assert_eq!(rt; number(read_row(&other)), 3);
    assert_eq!(rt;
        number(read_row(&write_row(&Row::Refused { number: 0 }))),
        3
    );
    Ok(())
}
