// What is answered.
ghost use Rattle.std.specs.Prelude.{◌≡◌, ◌++◌, ◌||◌, OnOk, IfOk, length, map, bytes_eq, true, false};
ghost use Rattle.std.specs.Int.{w16, to_be_bytes};
ghost use Rattle.server_talk.specs.Rows.{start_query};
ghost use Rattle.test_standin.specs.Answers.{spell, cell, column, each, row, greeting, answer_to, refusal};

use std::alloc::Global;
use std::io;
use std::io::ErrorKind;

/// The answer to the first message: no password is asked for.
pub fn greeting(alloc: Global) -> io::Result<Vec<u8>>
    ensures { IfOk result (λ bytes. bytes.items ≡ greeting) }
{
    let mut bytes = Vec::new(alloc);
    add_message(&mut bytes, b'R', b"\0\0\0\0".as_slice())?;
    add_message(&mut bytes, b'Z', b"I".as_slice())?;
    Ok(bytes)
}

/// The answer to a query of this text.
pub fn answer(alloc: Global, text: &str) -> io::Result<Vec<u8>>
    ensures { IfOk result (λ bytes. bytes.items ≡ answer_to text.now) }
{
    if text
        == "select system_identifier::text, (select setting from pg_catalog.pg_settings where name = 'wal_segment_size') from pg_catalog.pg_control_system()"
    {
        return row(alloc, &["6917529027641081857", "1048576"]);
    }
    if is_start(text) {
        return row(alloc, &["0/200028", "000000010000000000000002"]);
    }
    if text
        == "select lsn::text, pg_catalog.pg_walfile_name(lsn), labelfile, spcmapfile from pg_catalog.pg_backup_stop(false)"
    {
        return row(
            alloc,
            &["0/200100", "000000010000000000000002", "LABEL\n", ""],
        );
    }
    refusal(alloc)
}

fn is_start(text: &str) -> bool
    ensures { result ≡ bytes_eq text.now (start_query false) || bytes_eq text.now (start_query true) }
{
    text == "select lsn::text, pg_catalog.pg_walfile_name(lsn) from pg_catalog.pg_backup_start('pgBackRest backup', false) as lsn"
        || text
            == "select lsn::text, pg_catalog.pg_walfile_name(lsn) from pg_catalog.pg_backup_start('pgBackRest backup', true) as lsn"
}

// One row of these columns.
#[tactic(auto, unfolding(crate::specs::Answers::row))]
fn row(alloc: Global, texts: &[&str]) -> io::Result<Vec<u8>>
    ensures { IfOk result (λ bytes. bytes.items ≡ row (map (λ t. t.now) texts.now)) }
{
    let mut bytes = Vec::new(alloc);
    add_message(&mut bytes, b'T', &heading(alloc, texts)?)?;
    add_message(&mut bytes, b'D', &cells(alloc, texts)?)?;
    add_message(&mut bytes, b'C', b"SELECT 1\0".as_slice())?;
    add_message(&mut bytes, b'Z', b"I".as_slice())?;
    Ok(bytes)
}

#[tactic(auto, unfolding(crate::specs::Answers::refusal))]
fn refusal(alloc: Global) -> io::Result<Vec<u8>>
    ensures { IfOk result (λ bytes. bytes.items ≡ refusal) }
{
    let mut bytes = Vec::new(alloc);
    add_message(&mut bytes, b'E', b"C0A000\0Mnot known\0\0".as_slice())?;
    Ok(bytes)
}

fn heading(alloc: Global, texts: &[&str]) -> io::Result<Vec<u8>>
    ensures { IfOk result (λ bytes. bytes.items ≡ each column (map (λ t. t.now) texts.now)) }
{
    let mut bytes = counted(alloc, texts)?;
    for text in texts {
        bytes.extend_from_slice(column(text))?;
    }
    Ok(bytes)
}

// A column's description, which is the same for each text.
fn column(_text: &str) -> &'static [u8]
    ensures { result.now ≡ column _text.now }
{
    b"\0\0\0\0\0\0\0\0\0\0\x19\xff\xff\xff\xff\xff\xff\0\0".as_slice()
}

fn cells(alloc: Global, texts: &[&str]) -> io::Result<Vec<u8>>
    ensures { IfOk result (λ bytes. bytes.items ≡ each cell (map (λ t. t.now) texts.now)) }
{
    let mut bytes = counted(alloc, texts)?;
    for text in texts {
        bytes.extend_from_slice(&size_of(text.len())?.to_be_bytes())?;
        bytes.extend_from_slice(text.as_bytes())?;
    }
    Ok(bytes)
}

// The count of columns.
fn counted(alloc: Global, texts: &[&str]) -> io::Result<Vec<u8>>
    ensures { IfOk result (λ bytes. bytes.items ≡ to_be_bytes w16 (length texts.now)) }
{
    let Ok(count) = u16::try_from(texts.len()) else {
        return Err(io::Error::from(ErrorKind::InvalidInput));
    };
    let mut bytes = Vec::new(alloc);
    bytes.extend_from_slice(&count.to_be_bytes())?;
    Ok(bytes)
}

// Adds a message of this kind and body.
#[tactic(auto, unfolding(crate::specs::Answers::spell))]
fn add_message(bytes: &mut Vec<u8>, kind: u8, body: &[u8]) -> io::Result<()>
    ensures { OnOk result (bytes.new.items ≡ bytes.old.items ++ spell kind body.now) }
{
    let count = size_of(body.len().saturating_add(4))?;
    bytes.push(kind)?;
    bytes.extend_from_slice(&count.to_be_bytes())?;
    bytes.extend_from_slice(body)?;
    Ok(())
}

// A length as a message has it.
fn size_of(length: usize) -> io::Result<u32>
    ensures { IfOk result (λ n. n ≡ length) }
{
    match u32::try_from(length) {
        Ok(size) => Ok(size),
        Err(_) => Err(io::Error::from(ErrorKind::InvalidInput)),
    }
}
