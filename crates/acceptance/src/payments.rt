// Interest, costs and settlements of one bond.
use money::amounts::{Delivered, Terms, Unfinished};
use money::coupons::{Coupon, Frequency, UnknownFrequency};
use money::periods::Period;
use money::ranges::{Factor, Interest, Lots, Price, Rate, Ratio};
use money::settlements::{Failed, Settlement, settle};
use std::test::Fail;

fn interest() -> Option<Interest> {
    let coupon = Coupon {
        rate: Rate::new(28_500)?,
        frequency: Frequency::try_from(2).ok()?,
        period: Period::new(20_040, 20_224, 20_101)?,
    };
    Some(coupon.accrued())
}

// The settlement of a leg of which so many lots were delivered and two were not.
fn settled(failed: Failed, delivered: u32) -> Option<Settlement> {
    let terms = Terms {
        price: Price::new(1_012_500)?,
        ratio: Ratio::new(200)?,
        share: Ratio::new(5_000)?,
    };
    let delivered = Delivered {
        lots: Lots::new(delivered)?,
        factor: Factor::new(10_234)?,
        interest: interest()?,
    };
    let unfinished = Unfinished {
        lots: Lots::new(2)?,
        factor: Factor::new(10_234)?,
        valuation: Price::new(1_040_000)?,
    };
    Some(settle(failed, &terms, &delivered, &unfinished))
}

// What four lots cost.
fn four_lots() -> Option<u64> {
    let delivered = Delivered {
        lots: Lots::new(4)?,
        factor: Factor::new(10_234)?,
        interest: interest()?,
    };
    Some(delivered.cost(Price::new(1_012_500)?))
}

#[test]
fn amounts(rt: HostRuntime) -> Result<(), Fail> {
    let interest = interest().ok_or("out of range")?;
    assert_eq!(rt; interest.value(), 47_241_848);
    assert!(rt; four_lots() == Some(4_163_666_739));
    assert!(rt; Price::new(0).is_none());
    assert!(rt; Price::new(2_000_001).is_none());
    assert!(rt; Frequency::try_from(3) == Err(UnknownFrequency(3)));
    assert!(rt; Period::new(20_040, 20_224, 20_225).is_none());
    Ok(())
}

#[test]
fn settlements(rt: HostRuntime) -> Result<(), Fail> {
    let s = settled(Failed::Seller, 4).ok_or("in range")?;
    assert_eq!(rt; s.cost, 4_163_666_739);
    assert_eq!(rt; s.difference, 7_615_000);
    assert_eq!(rt; s.seller.performance, 40_500_000);
    assert_eq!(rt; s.seller.pays, 48_115_000);
    assert_eq!(rt; s.buyer.receives, 27_865_000);
    assert_eq!(rt; s.kept, 20_250_000);
    let s = settled(Failed::Buyer, 0).ok_or("in range")?;
    assert_eq!(rt; s.difference, 0);
    assert_eq!(rt; s.buyer.pays, 40_500_000);
    assert_eq!(rt; s.seller.receives, 20_250_000);
    let s = settled(Failed::Both, 0).ok_or("in range")?;
    assert_eq!(rt; s.kept, 81_000_000);
    assert_eq!(rt; s.share, 0);
    Ok(())
}
