// What a server answers, as the PostgreSQL manual lays out its messages.

use memory_devices::MemConnection;
use std::alloc::{AllocError, Global};

/// The start of a session: no password is asked for.
const GREETING: &[u8] = b"R\0\0\0\x08\0\0\0\0Z\0\0\0\x05I";

fn add_size(bytes: &mut Vec<u8>, size: usize) -> Result<(), AllocError> {
    let size = u32::try_from(size).unwrap_or(0);
    bytes.extend_from_slice(size.to_be_bytes().as_slice())
}

fn add_message(bytes: &mut Vec<u8>, kind: u8, body: &[u8]) -> Result<(), AllocError> {
    bytes.push(kind)?;
    add_size(bytes, body.len().saturating_add(4))?;
    bytes.extend_from_slice(body)
}

// A row's body: its columns, each after its length.
fn cells(alloc: Global, columns: &[&str]) -> Result<Vec<u8>, AllocError> {
    let mut body = Vec::new(alloc);
    let count = u16::try_from(columns.len()).unwrap_or(0);
    body.extend_from_slice(count.to_be_bytes().as_slice())?;
    for column in columns {
        add_size(&mut body, column.len())?;
        body.extend_from_slice(column.as_bytes())?;
    }
    Ok(body)
}

/// What a server answers: the start of a session.
pub(crate) fn greeting(alloc: Global) -> Result<Vec<u8>, AllocError> {
    Vec::from_slice(alloc, GREETING)
}

/// Then the answer to a query, which is one row.
pub(crate) fn add_row(
    alloc: Global,
    bytes: &mut Vec<u8>,
    columns: &[&str],
) -> Result<(), AllocError> {
    add_message(bytes, b'T', b"".as_slice())?;
    add_message(bytes, b'D', &cells(alloc, columns)?)?;
    add_message(bytes, b'C', b"SELECT 1\0".as_slice())?;
    add_message(bytes, b'Z', b"I".as_slice())
}

/// The server that answers so.
pub(crate) fn server(alloc: Global, bytes: Vec<u8>) -> Result<MemConnection, AllocError> {
    let cuts = Vec::from_slice(alloc, [7u32, 40, 3].as_slice())?;
    Ok(MemConnection::new(alloc, bytes, cuts, Vec::new(alloc)))
}
