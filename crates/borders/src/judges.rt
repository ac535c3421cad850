//! The judges, on both sides of every border.
use judge::{Graded, Judge, Plain, Slope, Threshold};

#[test]
fn plain_is_always_important(rt: HostRuntime) {
    assert_eq!(rt; Plain.stretch(-1, None, 0, 16), 1);
    assert_eq!(rt; Plain.stretch(i32::MIN, Some(i32::MAX), i32::MAX, 16), 1);
}

#[test]
fn threshold_is_important_from_it_upwards(rt: HostRuntime) {
    assert_eq!(rt; Threshold.stretch(50, None, 50, 3), 1);
    assert_eq!(rt; Threshold.stretch(49, None, 50, 3), 3);
    assert_eq!(rt; Threshold.stretch(i32::MIN, Some(50), i32::MAX, 16), 16);
    assert_eq!(rt; Threshold.stretch(i32::MIN, None, i32::MIN, 16), 1);
}

#[test]
fn slope_is_important_from_a_distance(rt: HostRuntime) {
    assert_eq!(rt; Slope.stretch(24, None, 5, 4), 1);
    assert_eq!(rt; Slope.stretch(25, Some(20), 5, 4), 1);
    assert_eq!(rt; Slope.stretch(15, Some(20), 5, 4), 1);
    assert_eq!(rt; Slope.stretch(24, Some(20), 5, 4), 4);
    assert_eq!(rt; Slope.stretch(16, Some(20), 5, 4), 4);
    assert_eq!(rt; Slope.stretch(20, Some(20), 0, 4), 1);
    assert_eq!(rt; Slope.stretch(20, Some(20), -1, 4), 1);
    // The distance passes the signed range.
    assert_eq!(rt; Slope.stretch(i32::MAX, Some(i32::MIN), i32::MAX, 4), 1);
}

#[test]
fn graded_stretches_by_whole_widths(rt: HostRuntime) {
    let tens = Graded::new(10);
    assert_eq!(rt; tens.stretch(50, None, 50, 3), 1);
    assert_eq!(rt; tens.stretch(49, None, 50, 3), 2);
    assert_eq!(rt; tens.stretch(40, None, 50, 3), 2);
    assert_eq!(rt; tens.stretch(39, None, 50, 3), 3);
    assert_eq!(rt; tens.stretch(29, None, 50, 3), 3);
    assert_eq!(rt; tens.stretch(29, None, 50, 16), 4);
    assert_eq!(rt; tens.stretch(49, None, 50, 1), 1);
}

#[test]
fn graded_counts_no_width_as_one(rt: HostRuntime) {
    let ones = Graded::new(0);
    assert_eq!(rt; ones.stretch(49, None, 50, 16), 2);
    assert_eq!(rt; ones.stretch(48, None, 50, 16), 3);
    assert_eq!(rt; ones.stretch(i32::MIN, None, i32::MAX, 16), 16);
    let widest = Graded::new(65535);
    assert_eq!(rt; widest.stretch(0, None, 65535, 16), 2);
    assert_eq!(rt; widest.stretch(-1, None, 65535, 16), 3);
}
