//! Numbers and lines with the values that were worked out by hand.

use crate::{lines_of, read_number};
use std::alloc::Global;
use std::process::Abort;
use std::test::Fail;

#[test]
fn numbers_are_read(rt: HostRuntime) {
    for (text, want) in [
        ("0", Some(0)),
        ("-0", Some(0)),
        ("007", Some(7)),
        ("-42", Some(-42)),
        ("0x1F", Some(31)),
        ("-0x80", Some(-128)),
        ("0x00fF", Some(255)),
        ("170141183460469231731687303715884105727", Some(i128::MAX)),
        ("170141183460469231731687303715884105728", None),
        ("-170141183460469231731687303715884105728", Some(i128::MIN)),
        ("-170141183460469231731687303715884105729", None),
        ("", None),
        ("-", None),
        ("+1", None),
        ("--1", None),
        ("0x", None),
        ("0x-1", None),
        ("0x+1", None),
        ("0X1", None),
        ("-0X1", None),
        ("1F", None),
        ("1_000", None),
        (" 1", None),
        ("1 ", None),
    ] {
        assert_eq!(rt; read_number(text), want, "{text}");
    }
}

/// The lines of the text are these.
fn expect(rt: &impl Abort, alloc: Global, text: &str, want: &[&str]) -> Result<(), Fail> {
    let found = lines_of(alloc, text)?;
    assert_eq!(rt; found.as_slice().len(), want.len(), "{text:?}");
    for (line, want) in found.as_slice().iter().zip(want) {
        assert_eq!(rt; line.as_str(), *want, "{text:?}");
    }
    Ok(())
}

#[test]
fn lines_are_found(rt: HostRuntime) -> Result<(), Fail> {
    let alloc = rt.alloc();
    expect(&rt, alloc, "", &[])?;
    expect(&rt, alloc, "\n", &[""])?;
    expect(&rt, alloc, "a\nb\n", &["a", "b"])?;
    expect(&rt, alloc, "a\r\nb\r\n", &["a", "b"])?;
    expect(&rt, alloc, "a\nb", &["a", "b"])?;
    expect(&rt, alloc, "a\nb\r", &["a", "b\r"])?;
    expect(&rt, alloc, "a\r\r\n", &["a\r"])?;
    expect(&rt, alloc, "a\rb\n\n", &["a\rb", ""])?;
    Ok(())
}
