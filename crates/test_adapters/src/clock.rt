// Tests of the system's clock.
use crate::same::{same, shell, well};
use adapters_files::RealClock;
use adapters_process::Scratch;
use base_devices::Clock;

#[test]
fn waits_until_a_second_is_over(rt: HostRuntime) {
    let mut clock = RealClock::new(rt);
    let first = well(&rt, clock.now());
    assert!(&rt; first > 1704164645);
    same(&rt, clock.wait_past(first), Ok(()));
    let second = well(&rt, clock.now());
    assert!(&rt; first < second);
    same(&rt, clock.wait_past(first), Ok(()));
}

// What is in a folder whose clock is looked at. A file that is made after that is of a later second than one
// before.
const FOLDERS: &[&str] = &[
    "mkdir data",
    "mkdir data; ln -s ../other data/pgsql_tmp.pgbackrest; >other",
    "mkdir data data/pgsql_tmp.pgbackrest",
    "true",
];

#[test]
fn waits_for_the_files_second(rt: HostRuntime) {
    let scratch = well(&rt, Scratch::new(rt, "touched"));
    let folder = well(&rt, scratch.below("data"));
    let mut clock = RealClock::new(rt);
    well(&rt, clock.by_folder(&folder));
    for before in FOLDERS {
        shell(&rt, &scratch, before);
        shell(&rt, &scratch, ">first");
        let second = well(&rt, clock.now());
        same(&rt, clock.wait_past(second), Ok(()));
        shell(
            &rt,
            &scratch,
            ">next; [ $(stat -c %Y first) != $(stat -c %Y next) ]; [ ! -f data/pgsql_tmp.pgbackrest ]; rm -rf data",
        );
    }
    well(&rt, scratch.remove());
}
