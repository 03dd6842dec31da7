// One sync of a whole file system, in place of one of each file: where it can be believed, and the program that does
// it.
use crate::mounts::kind_of_root;
use crate::place::Place;
use std::io::ErrorKind;
use std::os::unix::fs::MetadataExt;
use std::process::{Command, Stdio};
use std::{fs, io};

// The caller's path chooses no program here.
const PROGRAMS: &[&str] = &["/usr/bin/sync", "/bin/sync"];

// What the program reports first of itself. Others of this name pass a failure over, or sync something else.
const MAKER: &[u8] = b"sync (GNU coreutils)";

// Of these file systems a failed write-back is reported by the sync of all.
const KINDS: &[&str] = &["ext4", "xfs", "btrfs"];

// And since this release of Linux.
const RELEASE: (u32, u32) = (5, 8);

const NAME_OF_RELEASE: &str = "/proc/sys/kernel/osrelease";

/// The system's program that syncs a whole file system, looked for once.
#[derive(Drop)]
pub struct WholeSync {
    is_looked_for: bool,
    program: Option<&'static str>,
}

impl WholeSync {
    pub fn new() -> Self {
        WholeSync {
            is_looked_for: false,
            program: None,
        }
    }

    /// Whether one sync of the root's file system makes durable what was written to it, and reports each byte that
    /// was lost meanwhile.
    pub fn serves(&mut self, place: &Place) -> bool {
        let kind = kind_of_root(place);
        let is_known = kind.is_some_and(|kind| KINDS.contains(&kind.as_str()));
        is_known && is_new_enough(place).unwrap_or(false) && self.program_for(place).is_some()
    }

    /// Syncs the root's whole file system, and returns whether that succeeded. At an error nothing was begun.
    pub fn run(&mut self, place: &Place) -> io::Result<bool> {
        let Some(program) = self.program_for(place) else {
            return Err(io::Error::from(ErrorKind::NotFound));
        };
        let mut command = Command::new(place.rt.alloc(), program)?;
        command.arg("-f")?.arg(place.root())?;
        command.stdin(Stdio::null());
        command.stdout(Stdio::null());
        command.stderr(Stdio::null());
        Ok(command.status(&place.rt)?.success())
    }

    /// Syncs the root's whole file system, on which files were closed unsynced: the system may have forgotten what was
    /// lost of them, so nothing makes up for a sync that fails or can't be begun.
    pub fn demand(&mut self, place: &Place) -> io::Result<()> {
        if self.run(place)? {
            return Ok(());
        }
        Err(io::Error::new(ErrorKind::Other, "its file system's sync failed"))
    }

    fn program_for(&mut self, place: &Place) -> Option<&'static str> {
        if !self.is_looked_for {
            self.is_looked_for = true;
            self.program = find_program(place);
        }
        self.program
    }
}

fn find_program(place: &Place) -> Option<&'static str> {
    for program in PROGRAMS {
        if is_of_root(place, program) {
            return is_known(place, program)
                .unwrap_or(false)
                .then_some(*program);
        }
    }
    None
}

fn is_of_root(place: &Place, program: &str) -> bool {
    match fs::metadata(&place.rt, program) {
        Ok(seen) => seen.is_file() && seen.uid() == 0,
        Err(_) => false,
    }
}

// Whether the program is the one whose status can be believed.
fn is_known(place: &Place, program: &str) -> io::Result<bool> {
    let mut command = Command::new(place.rt.alloc(), program)?;
    command.arg("--version")?;
    command.stdin(Stdio::null());
    command.stderr(Stdio::null());
    let answer = command.output(&place.rt)?;
    Ok(answer.status.success() && answer.stdout.starts_with(MAKER))
}

fn is_new_enough(place: &Place) -> io::Result<bool> {
    let text = fs::read_to_string(&place.rt, NAME_OF_RELEASE)?;
    Ok(release_of(&text).is_some_and(|release| release >= RELEASE))
}

fn release_of(text: &str) -> Option<(u32, u32)> {
    let mut numbers = text.split(|c: char| !c.is_ascii_digit());
    let major = numbers.next()?.parse::<u32>().ok()?;
    let minor = numbers.next()?.parse::<u32>().ok()?;
    Some((major, minor))
}
