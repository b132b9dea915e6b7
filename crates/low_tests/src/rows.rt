//! Rows as the `csv` crate reads them.
use oc_rows::rows::Rows;
use std::test::Fail;

#[test]
fn reads_rows_as_they_are(rt: HostRuntime) -> Result<(), Fail> {
    let text = "\u{feff}\u{feff}a, b \r\n\r\n\n\"c,\"\"d\",\re\nf,,\n\"open\n,x";
    let cases = [
        (1, 2, "\u{feff}a", " b ", ""),
        (2, 2, "c,\"d", "", ""),
        (3, 1, "e", "", ""),
        (4, 3, "f", "", ""),
        (5, 1, "open\n,x", "", ""),
    ];
    let mut rows = Rows::new(rt.alloc(), text.as_bytes());
    for (number, count, first, second, third) in cases {
        assert!(rt; rows.step_on()?, "at {number}");
        assert_eq!(rt; rows.number(), number);
        assert_eq!(rt; rows.field_count(), count, "at {number}");
        assert_eq!(rt; rows.field(0), first.as_bytes(), "at {number}");
        assert_eq!(rt; rows.field(1), second.as_bytes(), "at {number}");
        assert_eq!(rt; rows.field(2), third.as_bytes(), "at {number}");
    }
    assert!(rt; !rows.step_on()?);
    assert!(rt; !rows.step_on()?);
    assert_eq!(rt; rows.number(), 5);
    Ok(())
}
