// A connection to a socket of the system.
use crate::same::{same, shell, well};
use adapters_files::RealConnection;
use adapters_process::Scratch;
use base_devices::{DeviceError, ServerConnection};
use std::fs::metadata;
use std::io::{Read, Write};
use std::os::unix::fs::MetadataExt;
use std::os::unix::net::UnixListener;
use std::process::Abort;

// A socket's path has fewer than 108 bytes.
const LONG: &str = "0123456789012345678901234567890123456789012345678901234567890123456789\
    0123456789012345678901234567890123456789";

// No connection is made to this name, and nothing can be sent then.
fn check_no_socket(
    rt: &impl Abort,
    scratch: &Scratch,
    connection: &mut RealConnection,
    name: &str,
) {
    let faults = connection.faults().saturating_add(3);
    let path = well(rt, scratch.below(name));
    same(rt, connection.open(&path), Err(DeviceError::Failed));
    same(rt, connection.send(b"Q"), Err(DeviceError::Failed));
    same(
        rt,
        connection.receive(&mut [0u8; 4]),
        Err(DeviceError::Failed),
    );
    same(rt, connection.faults(), faults);
}

#[test]
fn what_is_no_socket(rt: HostRuntime) {
    let scratch = well(&rt, Scratch::new(rt, "wire"));
    shell(&rt, &scratch, "mkdir folder; : >file");
    let mut connection = RealConnection::new(rt);
    check_no_socket(&rt, &scratch, &mut connection, "none");
    check_no_socket(&rt, &scratch, &mut connection, "file");
    check_no_socket(&rt, &scratch, &mut connection, "folder");
    check_no_socket(&rt, &scratch, &mut connection, LONG);
    same(&rt, connection.faults(), 12);
    well(&rt, scratch.remove());
}

// What is received next, into four bytes.
fn check_received(rt: &impl Abort, connection: &mut RealConnection, want: &[u8]) {
    let mut room = [0u8; 4];
    let given = well(rt, connection.receive(&mut room));
    same(rt, room.get(..given), Some(want));
}

#[test]
fn says_and_receivings(rt: HostRuntime) {
    let scratch = well(&rt, Scratch::new(rt, "talk"));
    let path = well(&rt, scratch.below("socket"));
    let listener = well(&rt, UnixListener::bind(&rt, path.as_str()));
    let mut connection = RealConnection::new(rt);
    same(&rt, connection.open(&path), Ok(()));
    let (mut server, _) = well(&rt, listener.accept());
    same(&rt, connection.send(b"question"), Ok(()));
    let mut received_reply = [0u8; 8];
    well(&rt, server.read_exact(&mut received_reply));
    same(&rt, received_reply.as_slice(), b"question");
    well(&rt, server.write_all(b"answer"));
    drop(server);
    check_received(&rt, &mut connection, b"answ");
    check_received(&rt, &mut connection, b"er");
    check_received(&rt, &mut connection, b"");
    // the one that listened before is gone, and so is the connection
    drop(listener);
    same(&rt, connection.send(b"X"), Err(DeviceError::Failed));
    same(&rt, connection.faults(), 1);
    well(&rt, scratch.remove());
}

#[test]
fn waits_for_so_long(rt: HostRuntime) {
    let scratch = well(&rt, Scratch::new(rt, "silent"));
    let path = well(&rt, scratch.below("socket"));
    let listener = well(&rt, UnixListener::bind(&rt, path.as_str()));
    let mut connection = RealConnection::new(rt);
    connection.set_timeout(1);
    same(&rt, connection.open(&path), Ok(()));
    same(&rt, connection.send(b"question"), Ok(()));
    same(
        &rt,
        connection.receive(&mut [0u8; 4]),
        Err(DeviceError::Failed),
    );
    // what isn't read stays, up to a limit
    let much = well(&rt, Vec::from_elem(rt.alloc(), 0u8, 1 << 20));
    same(&rt, connection.send(&much), Err(DeviceError::Failed));
    same(&rt, connection.faults(), 2);
    drop(listener);
    well(&rt, scratch.remove());
}

// Whether a socket of this process's user is opened where this one is expected.
#[test]
fn opens_a_socket_of_its_owner(rt: HostRuntime) {
    let scratch = well(&rt, Scratch::new(rt, "owner"));
    let path = well(&rt, scratch.below("socket"));
    let listener = well(&rt, UnixListener::bind(&rt, path.as_str()));
    shell(&rt, &scratch, "[ \"$(id -u)\" != 0 ] || chown 65534 socket");
    let user = well(&rt, metadata(&rt, path.as_str())).uid();
    let mut connection = RealConnection::new(rt);
    connection.expect_owner(user.saturating_add(1));
    same(&rt, connection.open(&path), Err(DeviceError::Failed));
    same(&rt, connection.send(b"Q"), Err(DeviceError::Failed));
    connection.expect_owner(user);
    same(&rt, connection.open(&path), Ok(()));
    drop(listener);
    well(&rt, scratch.remove());
}
