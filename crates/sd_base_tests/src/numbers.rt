//! Numbers that are wider than elements, what is stored at each width, and identities of resolutions.
use crate::sure::sure;
use sd_num::{Resolution, Width, element_of, identity, store, wrap};
use std::process::Abort;

/// A line is a number of 128 bits and its element: the number modulo 2 to the 64.
const WRAPPED: &str = "-5 -5
9223372036854775808 -9223372036854775808
-9223372036854775809 9223372036854775807
18446744073709551623 7
-1267650600228229401496703205373 3
-170141183460469231731687303715884105728 0
170141183460469231731687303715884105727 -1";

#[test]
fn wider_numbers_are_taken_modulo_two_to_the_64(rt: HostRuntime) {
    for line in WRAPPED.lines() {
        let (value, element) = line.split_once(' ').unwrap_or((line, ""));
        let element = sure(&rt, element.parse());
        assert!(rt; element_of(sure(&rt, value.parse())) == element, "{value}");
    }
}

/// A line is a number and its elements of 32 and of 64 bits.
const ELEMENTS: &str = "-1 -1 -1
2147483647 2147483647 2147483647
2147483648 -2147483648 2147483648
-2147483648 -2147483648 -2147483648
-2147483649 2147483647 -2147483649
4294967303 7 4294967303
9223372036854775807 -1 9223372036854775807
-9223372036854775808 0 -9223372036854775808";

#[test]
fn a_number_is_wrapped_to_its_width(rt: HostRuntime) {
    for line in ELEMENTS.lines() {
        let (value, elements) = line.split_once(' ').unwrap_or((line, ""));
        let (half, whole) = elements.split_once(' ').unwrap_or((elements, ""));
        let value = sure(&rt, value.parse());
        assert!(rt;
            wrap(Width::W32, value) == sure(&rt, half.parse()),
            "{line}"
        );
        assert!(rt;
            wrap(Width::W64, value) == sure(&rt, whole.parse()),
            "{line}"
        );
    }
}

#[test]
fn what_is_stored_is_an_element_of_the_width(rt: HostRuntime) {
    let sum = Some(Resolution::Sum);
    let product = Some(Resolution::Product);
    let least = Some(Resolution::Min);
    assert!(rt; store(Width::W32, None, 7, 2_147_483_648) == -2_147_483_648);
    assert!(rt; store(Width::W64, None, 7, 2_147_483_648) == 2_147_483_648);
    assert!(rt; store(Width::W32, sum, 2_147_483_647, 1) == -2_147_483_648);
    assert!(rt; store(Width::W64, sum, 2_147_483_647, 1) == 2_147_483_648);
    assert!(rt; store(Width::W64, sum, i64::MAX, 1) == i64::MIN);
    assert!(rt; store(Width::W32, product, -2_147_483_648, -1) == -2_147_483_648);
    assert!(rt; store(Width::W32, least, 2_147_483_647, 5_000_000_000) == 705_032_704);
    assert!(rt; store(Width::W64, least, 2_147_483_647, 5_000_000_000) == 2_147_483_647);
}

/// The identity of each resolution at 32 bits, and then at 64: those of sums and products first, then of the least and the greatest, of
/// bits, and of the last value.
const IDENTITIES: &str = "Some(0) Some(1) Some(2147483647) Some(-2147483648) \
    Some(-1) Some(0) Some(0) None \
    Some(0) Some(1) Some(9223372036854775807) Some(-9223372036854775808) \
    Some(-1) Some(0) Some(0) None ";

/// Writes what `identity` answers for each resolution at a width.
fn tell(rt: &impl Abort, told: &mut String, width: Width) {
    for resolution in [
        Resolution::Sum,
        Resolution::Product,
        Resolution::Min,
        Resolution::Max,
        Resolution::And,
        Resolution::Or,
        Resolution::Xor,
        Resolution::Last,
    ] {
        sure(rt, write!(told, "{:?} ", identity(resolution, width)));
    }
}

#[test]
fn each_resolution_but_the_last_value_has_an_identity(rt: HostRuntime) {
    let mut told = String::new(rt.alloc());
    tell(&rt, &mut told, Width::W32);
    tell(&rt, &mut told, Width::W64);
    assert_eq!(rt; told.as_str(), IDENTITIES);
}
