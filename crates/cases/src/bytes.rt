//! Bytes as a case writes them: a piece, or an array of pieces.

use crate::faults::Fault;
use std::alloc::Global;
use toml::{Table, Value};

/// The bytes that stand at a key.
pub fn bytes_of(alloc: Global, key: &'static str, value: &Value) -> Result<Vec<u8>, Fault> {
    let mut bytes = Vec::new(alloc);
    match value {
        Value::Array(pieces) => {
            for piece in pieces.as_slice() {
                put_piece(&mut bytes, key, piece)?;
            }
        }
        piece => put_piece(&mut bytes, key, piece)?,
    }
    Ok(bytes)
}

/// Appends a piece: a text, a byte, or a text that stands several times.
fn put_piece(bytes: &mut Vec<u8>, key: &'static str, piece: &Value) -> Result<(), Fault> {
    match piece {
        Value::String(text) => bytes.extend_from_slice(text.as_bytes())?,
        Value::Integer(number) => match u8::try_from(*number) {
            Ok(byte) => bytes.push(byte)?,
            Err(_) => return Err(Fault::WrongValue(key)),
        },
        Value::Table(table) => put_times(bytes, key, table)?,
        _ => return Err(Fault::WrongValue(key)),
    }
    Ok(())
}

/// Appends the text of a table as many times as it says.
fn put_times(bytes: &mut Vec<u8>, key: &'static str, table: &Table) -> Result<(), Fault> {
    let text = table.get("text").and_then(Value::as_str);
    let times = table.get("times").and_then(Value::as_integer);
    let (Some(text), Some(times)) = (text, times) else {
        return Err(Fault::WrongValue(key));
    };
    let Ok(times) = u32::try_from(times) else {
        return Err(Fault::WrongValue(key));
    };
    for _ in 0..times {
        bytes.extend_from_slice(text.as_bytes())?;
    }
    Ok(())
}
