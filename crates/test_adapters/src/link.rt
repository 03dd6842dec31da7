// A worker that sends nothing.
use crate::same::{same, shell, well};
use adapters_process::{RealLink, Scratch};
use base_devices::{DeviceError, Link};
use std::alloc::Global;
use std::process::Abort;

fn program_arguments(rt: &impl Abort, alloc: Global, script: &str) -> Vec<String> {
    let mut arguments = Vec::new(alloc);
    well(rt, arguments.push(well(rt, String::from_str(alloc, "-c"))));
    well(
        rt,
        arguments.push(well(rt, String::from_str(alloc, script))),
    );
    arguments
}

// What a worker does, to which a frame is sent, and what is received of it then.
const WORKERS: &[(&str, Result<usize, DeviceError>)] = &[
    ("head -c 1 | tr a b", Ok(1)),
    ("true", Ok(0)),
    ("exec >&-; exec sleep 60", Ok(0)),
    ("exec sleep 60", Err(DeviceError::Failed)),
    // silent, but at work
    ("for i in 1 2 3 4 5 6; do sleep 0.5; done; echo", Ok(1)),
];

// Each process that was started and has ended is waited for.
const NONE_LEFT: &str =
    "! grep -ls \"^PPid:[^0-9]*$PPID\\$\" /proc/[0-9]*/status | xargs grep -q '^State:.Z'";

#[test]
fn is_waited_for_so_long(rt: HostRuntime) {
    let scratch = well(&rt, Scratch::new(rt, "worker"));
    for (script, wanted) in WORKERS {
        let program = well(&rt, String::from_str(rt.alloc(), "/bin/sh"));
        let mut link = RealLink::new(rt, program, program_arguments(&rt, rt.alloc(), script));
        link.set_timeout(1);
        let sent = link.send(b"a");
        let mut room = [0u8; 4];
        let received_reply = link.receive(&mut room);
        if sent.is_ok() {
            same(&rt, received_reply, *wanted);
        }
        // once it is known that it sends no more
        let _ = link.receive(&mut room);
        shell(&rt, &scratch, NONE_LEFT);
    }
    well(&rt, scratch.remove());
}
