//! The five calls of `UInt`.

use rsb_length::UInt;

/// Two numbers, and their sum, difference and product, as far as the type has them.
type Row<T> = (T, T, Option<T>, Option<T>, Option<T>);

/// Returns whether the checked calls on two numbers return what the row has.
fn calls_answer<T: UInt>(row: &Row<T>) -> bool {
    let (a, b, sum, rest, product) = row;
    a.checked_sum(*b) == *sum
        && a.checked_difference(*b) == *rest
        && a.checked_product(*b) == *product
}

/// Rows for `u8`.
static CHECKED: [Row<u8>; 12] = [
    (0, 0, Some(0), Some(0), Some(0)),
    (255, 0, Some(255), Some(255), Some(0)),
    (255, 1, None, Some(254), Some(255)),
    (255, 2, None, Some(253), None),
    (254, 1, Some(255), Some(253), Some(254)),
    (1, 2, Some(3), None, Some(2)),
    (2, 2, Some(4), Some(0), Some(4)),
    (127, 2, Some(129), Some(125), Some(254)),
    (128, 127, Some(255), Some(1), None),
    (15, 17, Some(32), None, Some(255)),
    (16, 16, Some(32), Some(0), None),
    (255, 255, None, Some(0), None),
];

/// Half the number of values of `u128`.
const HALF: u128 = 1 << 127;

/// Rows for `u128`.
static WIDE: [Row<u128>; 7] = [
    (u128::MAX, 0, Some(u128::MAX), Some(u128::MAX), Some(0)),
    (u128::MAX, 1, None, Some(u128::MAX - 1), Some(u128::MAX)),
    (u128::MAX, 2, None, Some(u128::MAX - 2), None),
    (1, 2, Some(3), None, Some(2)),
    (2, 2, Some(4), Some(0), Some(4)),
    (
        HALF - 1,
        2,
        Some(HALF + 1),
        Some(HALF - 3),
        Some(u128::MAX - 1),
    ),
    (HALF, 2, Some(HALF + 2), Some(HALF - 2), None),
];

#[test]
fn calls_end_where_the_type_does(rt: HostRuntime) {
    assert!(rt; u8::greatest() == 255 && u8::one_past_text() == "256");
    assert!(rt; u128::greatest() == u128::MAX && u128::one_past_text() == "(u128::MAX + 1)");
    for row in &CHECKED {
        assert!(rt; calls_answer(row), "of {} and {}", row.0, row.1);
    }
    for row in &WIDE {
        assert!(rt; calls_answer(row), "of {} and {}", row.0, row.1);
    }
}
