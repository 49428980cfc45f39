// Values from outside: the worked roots of demand tables, and what a number field of a file may show.
use super::*;

const MOST: u64 = 1_000_000_000_000_000_000;

#[test]
fn spaces_at_both_ends_and_zeros_in_front_are_passed_over(rt: HostRuntime) {
    let fields: [(&[u8], u64); 7] = [
        (b"0", 0),
        (b"7", 7),
        (b"400", 400),
        (b"  17", 17),
        (b"17   ", 17),
        (b" 0090 ", 90),
        (b"0000000000000000000000000000000000000012", 12),
    ];
    for (field, number) in fields {
        assert_eq!(rt; read_whole(field, 0, 400), Ok(number), "{number}");
    }
}

#[test]
fn a_number_is_refused_on_either_side_of_its_range(rt: HostRuntime) {
    assert_eq!(rt; read_whole(b"9", 10, 400), Err(NumFault::OutOfRange));
    assert_eq!(rt; read_whole(b"10", 10, 400), Ok(10));
    assert_eq!(rt; read_whole(b"400", 10, 400), Ok(400));
    assert_eq!(rt; read_whole(b"401", 10, 400), Err(NumFault::OutOfRange));
    assert_eq!(rt; read_whole(b"1000000000000000000", 0, MOST), Ok(MOST));
    assert_eq!(rt;
        read_whole(b"1000000000000000001", 0, MOST),
        Err(NumFault::OutOfRange)
    );

    // 2 ^ 64 and forty digits: more than a `u64` holds
    assert_eq!(rt;
        read_whole(b"18446744073709551616", 0, MOST),
        Err(NumFault::OutOfRange)
    );
    let forty_digits = b"1234567890123456789012345678901234567890";
    assert_eq!(rt;
        read_whole(forty_digits, 0, MOST),
        Err(NumFault::OutOfRange)
    );
}

#[test]
fn a_field_without_digits_or_with_more_than_digits_has_its_own_refusal(rt: HostRuntime) {
    let fields: [(&[u8], NumFault); 10] = [
        (b"", NumFault::Empty),
        (b"   ", NumFault::Empty),
        (b"-1", NumFault::NotDigits),
        (b"+1", NumFault::NotDigits),
        (b"5.0", NumFault::NotDigits),
        (b"1 2", NumFault::NotDigits),
        (b"1,000", NumFault::NotDigits),
        (b"\t5", NumFault::NotDigits),
        (b"9/", NumFault::NotDigits),
        (b"9:", NumFault::NotDigits),
    ];
    for (field, fault) in fields {
        assert_eq!(rt; read_whole(field, 0, 400), Err(fault), "{fault:?}");
    }
}

#[test]
fn roots_are_rounded_up(rt: HostRuntime) {
    let normal_of_five: [(u64, u64); 4] = [(0, 0), (25, 5), (50, 8), (75, 9)];
    for (n, root) in normal_of_five {
        assert_eq!(rt; root_up(u128::from(n)), root, "of {n}");
    }
    assert_eq!(rt; root_up(3 * 3 + 4 * 4), 5, "pooled demand of 3 and 4");
    assert_eq!(rt; root_up(3 * 3 + 3 * 3), 5, "pooled demand of 3 and 3");
}

#[test]
fn the_greatest_square_has_the_greatest_root(rt: HostRuntime) {
    let most = u128::from(u64::MAX);
    assert_eq!(rt; root_up(most * most), u64::MAX);
    assert_eq!(rt; root_up((most - 1) * (most - 1)), u64::MAX - 1);
    assert_eq!(rt; root_up((most - 1) * (most - 1) + 1), u64::MAX);
}
