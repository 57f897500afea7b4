// Odd lots shared out, and what no rule answers.
use crate::answers::number;
use oddlot::house::HouseRule;
use oddlot::rules::OddLots;
use std::process::Abort;

// The rule's answer for three entries.
fn three(rt: &impl Abort, rule: HouseRule, lots: [u32; 3], n: u32, parts: [u32; 3]) {
    let mut area = [9; 3];
    assert_eq!(rt; number(rule.split(&lots, n, &mut area)), 0);
    assert!(rt; area == parts);
}

#[test]
fn shared(rt: HostRuntime) {
    three(&rt, HouseRule::Running, [1, 1, 1], 2, [0, 1, 1]);
    three(&rt, HouseRule::Remainder, [1, 1, 1], 2, [1, 1, 0]);
    three(&rt, HouseRule::Running, [6, 3, 4], 6, [2, 2, 2]);
    three(&rt, HouseRule::Remainder, [6, 3, 4], 6, [3, 1, 2]);
    three(
        &rt,
        HouseRule::Running,
        [100_000, 100_000, 1],
        200_001,
        [100_000, 100_000, 1],
    );
    three(&rt, HouseRule::Remainder, [5, 7, 9], 0, [0, 0, 0]);
}

// The rule refuses, and the area is as it was.
fn refused(rt: &impl Abort, rule: HouseRule, lots: &[u32], n: u32) {
    let mut area = [9; 2];
    assert_eq!(rt; number(rule.split(lots, n, &mut area)), 8);
    assert!(rt; area == [9; 2]);
}

#[test]
fn not_shared(rt: HostRuntime) {
    refused(&rt, HouseRule::Running, &[], 0);
    refused(&rt, HouseRule::Remainder, &[1, 0], 1);
    refused(&rt, HouseRule::Running, &[1, 100_001], 1);
    refused(&rt, HouseRule::Remainder, &[1, 2], 4);
    refused(&rt, HouseRule::Running, &[1, 1, 1], 2);
    refused(&rt, HouseRule::Remainder, &[3], 2);
    let mut area = [9; 257];
    assert_eq!(rt;
        number(HouseRule::Running.split(&[1; 257], 1, &mut area)),
        8
    );
}
