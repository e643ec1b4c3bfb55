use std::alloc::Global;
use std::process::Abort;
use std::test::Fail;
use tl_base::{NoMemory, Text};
use tl_values::{
    Comparison, KeyFault, Row, Truth, Value, compare, copy_row, decode_key, encode_key, order,
};

/// A value that costs nothing to copy.
#[derive(Clone, Copy)]
enum Plain {
    Null,
    Bool(bool),
    Int(i64),
    Text(&'static str),
}

fn value(alloc: Global, plain: Plain) -> Result<Value, NoMemory> {
    match plain {
        Plain::Null => Ok(Value::Null),
        Plain::Bool(truth) => Ok(Value::Bool(truth)),
        Plain::Int(number) => Ok(Value::Int(number)),
        Plain::Text(text) => Ok(Value::Text(Text::from_str(alloc, text)?)),
    }
}

fn row_of(alloc: Global, plain: &[Plain]) -> Result<Row, NoMemory> {
    let mut row = Row::new(alloc);
    for plain in plain {
        row.push(value(alloc, *plain)?)?;
    }
    Ok(row)
}

// The value has this key, and the key is read again.
fn expect_key(rt: &impl Abort, alloc: Global, plain: Plain, bytes: &[u8]) -> Result<(), Fail> {
    let row = row_of(alloc, &[plain])?;
    let key = encode_key(alloc, row.as_slice())?;
    assert_eq!(rt; key.as_slice(), bytes);
    let back = decode_key(alloc, bytes)?;
    assert!(rt; back == row);
    Ok(())
}

#[test]
fn values_have_these_keys(rt: HostRuntime) -> Result<(), Fail> {
    let keys: [(Plain, &'static [u8]); 8] = [
        (Plain::Null, &[0]),
        (Plain::Bool(false), &[1, 0]),
        (Plain::Bool(true), &[1, 1]),
        (Plain::Int(i64::MIN), &[2, 0, 0, 0, 0, 0, 0, 0, 0]),
        (
            Plain::Int(i64::MAX),
            &[2, 0xff, 0xff, 0xff, 0xff, 0xff, 0xff, 0xff, 0xff],
        ),
        (Plain::Int(1), &[2, 0x80, 0, 0, 0, 0, 0, 0, 1]),
        (Plain::Text(""), &[3, 0, 0]),
        (Plain::Text("a\0b"), &[3, 0x61, 0, 0xff, 0x62, 0, 0]),
    ];
    for (plain, bytes) in keys {
        expect_key(&rt, rt.alloc(), plain, bytes)?;
    }
    Ok(())
}

#[test]
fn other_bytes_are_no_keys(rt: HostRuntime) {
    let bad: [&[u8]; 3] = [&[2, 0], &[3, 0x61, 0, 1], &[4]];
    for bytes in bad {
        assert!(rt; matches!(decode_key(rt.alloc(), bytes), Err(KeyFault::BadKey)));
    }
}

static RISING: [Plain; 7] = [
    Plain::Null,
    Plain::Bool(false),
    Plain::Bool(true),
    Plain::Int(-1),
    Plain::Int(1),
    Plain::Text("a"),
    Plain::Text("ab"),
];

#[test]
fn values_are_ordered(rt: HostRuntime) -> Result<(), Fail> {
    let row = copy_row(&row_of(rt.alloc(), &RISING)?)?;
    for (i, a) in row.as_slice().iter().enumerate() {
        for (j, b) in row.as_slice().iter().enumerate() {
            assert_eq!(rt; order(a, b), i.cmp(&j));
        }
    }
    Ok(())
}

#[test]
fn values_are_compared(rt: HostRuntime) {
    let cases = [
        (Value::Int(-1), Comparison::Less, Truth::True),
        (Value::Int(-1), Comparison::GreaterEqual, Truth::False),
        (Value::Null, Comparison::Equal, Truth::Unknown),
    ];
    for (value, by, truth) in &cases {
        assert_eq!(rt; compare(value, *by, &Value::Int(1)), *truth);
    }
}
