//! Texts with the numbers that they write, each from the rules of `docs/language.md`.
use fixed_text::{read_decimal, read_start, read_u64, write_i64, write_u64};
use std::process::Abort;
use std::test::Fail;

// Each row: a text, and what each reader makes of it: a decimal in millionths, a whole number, a second of the week.
const DECIMALS: &[(&str, Option<i64>, Option<u64>, Option<u32>)] = &[
    ("0.000001", Some(1), None, None),
    ("0.04", Some(40_000), None, None),
    ("12.", Some(12_000_000), None, None),
    ("007.5", Some(7_500_000), None, None),
    ("1000000000.", Some(1_000_000_000_000_000), None, None),
    ("1000000000.000000", Some(1_000_000_000_000_000), None, None),
    ("999999999.999999", Some(999_999_999_999_999), None, None),
    ("1000000000.000001", None, None, None),
    ("99999999999999999999.", None, None, None),
    ("1.0000000", None, None, None),
    (".5", None, None, None),
    (".", None, None, None),
    ("", None, None, None),
    ("-1.5", None, None, None),
    ("1.2.3", None, None, None),
    ("1.5h", None, None, None),
];

// Each row: a text, and what each reader makes of it: a decimal in millionths, a whole number, a second of the week.
const WHOLE_NUMBERS_AND_STARTS: &[(&str, Option<i64>, Option<u64>, Option<u32>)] = &[
    ("0", None, Some(0), None),
    ("7", None, Some(7), None),
    ("1000000000", None, Some(1_000_000_000), None),
    ("18446744073709551615", None, Some(u64::MAX), None),
    ("18446744073709551616", None, None, None),
    ("07", None, None, None),
    ("+7", None, None, None),
    ("7 ", None, None, None),
    ("1:00:00:00", None, None, Some(0)),
    ("1:00:01:02", None, None, Some(62)),
    ("2:01:00:00", None, None, Some(90_000)),
    ("7:23:59:59", None, None, Some(604_799)),
    ("0:00:00:00", None, None, None),
    ("8:00:00:00", None, None, None),
    ("1:24:00:00", None, None, None),
    ("1:00:60:00", None, None, None),
    ("1:00:00:60", None, None, None),
    ("1:0:00:00", None, None, None),
    ("1:00:00:00 ", None, None, None),
    ("1-00-00-00", None, None, None),
];

// Checks that the readers of decimals, whole numbers and starts make these of a text; `None` for one that refuses it.
fn check_row(
    rt: &impl Abort,
    text: &str,
    decimal: Option<i64>,
    whole: Option<u64>,
    start: Option<u32>,
) {
    let bytes = text.as_bytes();
    assert!(rt;
        read_decimal(bytes).map(|d| d.millionths) == decimal,
        "{text}"
    );
    assert!(rt; read_u64(bytes) == whole, "{text}");
    assert!(rt; read_start(bytes).map(|at| at.second) == start, "{text}");
}

// Checks each row: a text, and what the readers of decimals, whole numbers and starts make of it.
fn check(rt: &impl Abort, rows: &[(&str, Option<i64>, Option<u64>, Option<u32>)]) {
    for row in rows {
        let (text, decimal, whole, start) = *row;
        check_row(rt, text, decimal, whole, start);
    }
}

// The reader of decimals reads each text exactly, or refuses it.
#[test]
fn decimals_are_exact_to_a_millionth(rt: HostRuntime) {
    check(&rt, DECIMALS);
}

// Whole numbers and starts are read from their one text, and other texts are refused.
#[test]
fn whole_numbers_and_starts_have_one_text(rt: HostRuntime) {
    check(&rt, WHOLE_NUMBERS_AND_STARTS);
}

// Numbers are printed behind what a list holds already, the least and the greatest ones too.
#[test]
fn written_texts_are_appended(rt: HostRuntime) -> Result<(), Fail> {
    let mut into = b"x".to_vec(rt.alloc())?;
    write_i64(&mut into, i64::MIN)?;
    write_u64(&mut into, u64::MAX)?;
    write_i64(&mut into, 0)?;
    assert_eq!(rt;
        into.as_slice(),
        b"x-9223372036854775808184467440737095516150".as_slice()
    );
    Ok(())
}
