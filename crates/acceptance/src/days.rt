// Business days by each calendar.
use crate::answers::number;
use calendar::calendars::{Calendar, next_business_day};
use calendar::closings::Closings;
use calendar::listed::Listed;
use calendar::weekdays::Weekdays;

#[test]
fn weekdays(rt: HostRuntime) {
    assert!(rt; Weekdays.is_business_day(0));
    assert!(rt; Weekdays.is_business_day(1));
    assert!(rt; !Weekdays.is_business_day(2));
    assert!(rt; !Weekdays.is_business_day(3));
    assert!(rt; Weekdays.is_business_day(4));
    assert!(rt; Weekdays.is_business_day(100_000));
    assert!(rt; !Weekdays.is_business_day(100_001));
    assert!(rt; next_business_day(&Weekdays, 20_103, 20_153) == Some(20_104));
    assert!(rt; next_business_day(&Weekdays, 20_098, 20_100) == None);
    assert!(rt; next_business_day(&Weekdays, 20_098, 20_101) == Some(20_101));
}

#[test]
fn listed(rt: HostRuntime) {
    let list: &[u32] = &[20_110, 20_100, 20_110, 100_001];
    let days = Listed { days: list };
    assert!(rt; days.is_business_day(20_100));
    assert!(rt; !days.is_business_day(20_101));
    assert!(rt; !days.is_business_day(100_001));
    assert!(rt; next_business_day(&days, 20_100, 20_200) == Some(20_110));
}

// 64 days are named, one of them again, and a 65th is refused.
#[test]
fn closings(rt: HostRuntime) {
    let mut calendar = Closings::over(Weekdays);
    for day in 20_096..20_160 {
        assert!(rt; calendar.close(day).is_ok());
    }
    assert!(rt; calendar.close(20_096).is_ok());
    assert_eq!(rt; number(calendar.close(20_160)), 9);
    assert!(rt; !calendar.is_business_day(20_097));
    assert!(rt; calendar.is_business_day(20_160));
    assert!(rt; next_business_day(&calendar, 20_095, 20_200) == Some(20_160));
}
