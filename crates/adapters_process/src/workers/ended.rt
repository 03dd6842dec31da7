// Ending processes that were started.
use crate::workers::link::RealLink;
use std::process::Child;
use std::thread;
use std::time::Duration;

// A process that is killed is looked for this often, a hundred times a second. One that the system can't end stays.
const LOOKS: u32 = 20;

// How often workers that are done are looked for, a thousand times a second.
const LOOKS_FOR_ALL: u32 = 300;

/// Kills a process, and waits a while for its end.
pub(crate) fn end(rt: &HostRuntime, child: &mut Child) {
    let _ = child.kill();
    for _ in 0..LOOKS {
        if !matches!(child.try_wait(), Ok(None)) {
            return;
        }
        thread::sleep(rt, Duration::from_millis(10));
    }
}

/// Lets all workers end, and waits for them, so that no process is left over. It waits for some tenths of a second,
/// however many they are, since one of them may hang in a call of the system.
pub fn end_workers(rt: &HostRuntime, links: &mut Vec<RealLink>) {
    for link in links.iter_mut() {
        link.close();
    }
    wait_for_all(rt, links);
}

fn wait_for_all(rt: &HostRuntime, links: &mut Vec<RealLink>) {
    for _ in 0..LOOKS_FOR_ALL {
        if links.iter_mut().all(|link| link.has_ended()) {
            return;
        }
        thread::sleep(rt, Duration::from_millis(1));
    }
}
