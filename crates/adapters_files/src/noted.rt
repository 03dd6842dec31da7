// The note in the root, of folders whose names are durable: it spares a command the sync of each. A node's time of
// change is set by the system alone, from a clock that continues, and each change of a name in a folder sets the
// folder's. So once the clock is past it, a folder of the same time has the same names.
use crate::place::{FILE_MODE, Place, folder_of, no_memory, sync_folder};
use std::alloc::Global;
use std::fs::{File, Metadata, OpenOptions};
use std::io::ErrorKind;
use std::os::unix::fs::{FileExt, MetadataExt, OpenOptionsExt};
use std::{fs, io};

// It is written in place: a rename would change the root, and so cost its sync.
const NOTE: &str = "settled.note";

// The first line, which is there as soon as anything is.
const HEAD: &str = "settled folders\n";

/// As many folders as it lists.
pub const MOST_LINES: usize = 256;

const MOST_BYTES: u64 = 65_536;

/// A node as it was at a moment.
#[derive(Clone, Copy, PartialEq)]
pub struct State {
    pub device: u64,
    inode: u64,
    // when it was changed last
    seconds: i64,
    nanos: i64,
}

impl State {
    pub fn of(known: &Metadata) -> Self {
        State {
            device: known.dev(),
            inode: known.ino(),
            seconds: known.ctime(),
            nanos: known.ctime_nsec(),
        }
    }

    /// Whether its file system reports more of a time than whole seconds. One that reports whole seconds, or makes
    /// times up, reports too little.
    pub fn is_fine(&self) -> bool {
        self.nanos != 0
    }

    // Whether the other node was changed later, by the same clock.
    fn is_before(&self, other: &State) -> bool {
        let is_less = if self.seconds == other.seconds {
            self.nanos < other.nanos
        } else {
            self.seconds < other.seconds
        };
        self.device == other.device && is_less
    }

    fn is_same_node(&self, other: &State) -> bool {
        self.device == other.device && self.inode == other.inode
    }
}

/// What this process has found that the note could record.
#[derive(Drop)]
pub struct Noted {
    // the states of folders that were synced, the last one first; no later state is the same
    synced: Vec<State>,
    // the state of a folder in which this process changed a name just before
    young: Option<State>,
    // the folder in which this process changed a name last
    changed: Option<String>,
    // its state in which its names are durable, since they were made so after that change
    durable: Option<State>,
    // the node that was changed last of those that were seen
    latest: Option<State>,
    // the folders below which no other process changes names, since this one holds their locks
    own: Vec<&'static str>,
    // whether what was changed last lies in it
    is_own: bool,
    // whether this process has looked for what its first new name did to the times of its folder
    is_compared: bool,
    // the device whose folders keep their times whatever is changed in them
    blind: Option<u64>,
}

impl Noted {
    pub fn new(rt: &HostRuntime) -> Self {
        Noted {
            synced: Vec::new(rt.alloc()),
            young: None,
            changed: None,
            durable: None,
            latest: None,
            own: Vec::new(rt.alloc()),
            is_own: false,
            is_compared: false,
            blind: None,
        }
    }

    /// From now on no other process changes names below this folder: that is what its lock is for. Without memory that
    /// isn't known, and costs a few syncs.
    pub fn own(&mut self, folder: &'static str) {
        let _ = self.own.push(folder);
    }

    /// This process changes a name.
    pub fn change(&mut self, place: &Place, name: &str) -> io::Result<()> {
        self.young = None;
        self.durable = None;
        self.is_own = self.own.iter().any(|own| is_below(name, own));
        let path = place.path_of(name)?;
        self.changed = Some(String::from_str(place.rt.alloc(), folder_of(&path))?);
        Ok(())
    }

    /// Whether this process changes names: it has done so, or holds a lock for it.
    pub fn is_of_writer(&self) -> bool {
        self.changed.is_some() || !self.own.is_empty()
    }

    /// The folder in which this process is about to make its first name: None once it was compared, or where there is
    /// none.
    pub fn before_first(&self, place: &Place) -> Option<State> {
        if self.is_compared {
            return None;
        }
        state_at(place, self.changed.as_ref()?)
    }

    /// A name was made in a folder that was so before. Where that is seen by nothing, the times of its device say
    /// nothing.
    pub fn compare(&mut self, place: &Place, before: Option<State>) {
        if let (Some(before), Some(changed)) = (before, &self.changed) {
            self.is_compared = true;
            if state_at(place, changed) == Some(before) {
                self.blind = Some(before.device);
            }
        }
    }

    /// Whether a folder in this state has the names that it had in it before.
    pub fn believes(&self, state: State) -> bool {
        state.is_fine() && self.blind != Some(state.device)
    }

    /// Its file system's clock is past the times of the node that is seen.
    pub fn see(&mut self, state: State) {
        let is_later = match &self.latest {
            Some(latest) => latest.device != state.device || latest.is_before(&state),
            None => true,
        };
        if is_later {
            self.latest = Some(state);
        }
    }

    /// The states of folders that the note states, which are none where it isn't there or isn't whole.
    pub fn known(&mut self, place: &Place) -> Vec<State> {
        match read_note(place) {
            Ok(Some((note, states))) => {
                self.see(note);
                states
            }
            _ => Vec::new(place.rt.alloc()),
        }
    }

    /// Whether the names in a folder that was seen in this state are durable: these states were known, or this process
    /// made them so.
    pub fn is_durable(&self, known: &[State], path: &str, state: State) -> bool {
        let is_known = self.durable == Some(state) && self.has_changed(path)
            || known.iter().any(|durable| *durable == state);
        is_known && self.believes(state)
    }

    /// Makes the names in a folder durable that was seen in this state.
    pub fn sync(&mut self, place: &Place, path: &str, state: State) -> io::Result<()> {
        if let Some(folder) = sync_folder(&place.rt, path)? {
            if is_in_state(&folder, state) {
                self.add(path, state);
            }
        }
        Ok(())
    }

    /// The names in a folder are durable that was in this state before they were made so, and is after it. That is
    /// noted where the clock was past the state before it, or where no other process changes names in the folder: this
    /// one did, and holds its lock. Without memory it isn't.
    pub fn add(&mut self, path: &str, state: State) {
        let is_past = self
            .latest
            .as_ref()
            .is_some_and(|latest| state.is_before(latest));
        let is_own = self.is_own && self.has_changed(path);
        if !self.believes(state) || self.synced.len() >= MOST_LINES {
            return;
        }
        if is_past {
            let _ = self.synced.insert(0, state);
        } else if is_own {
            self.young = Some(state);
        }
        if is_own {
            self.durable = Some(state);
        }
    }

    // Whether it is the folder in which this process changed a name last.
    fn has_changed(&self, path: &str) -> bool {
        self.changed
            .as_ref()
            .is_some_and(|changed| changed.as_str() == path)
    }

    /// Writes the note anew, where this process changes names and has something to add. It isn't needed, so a failure
    /// isn't reported.
    pub fn write(&mut self, place: &Place) {
        let young = self.young.take();
        let has_more = young.is_some() || !self.synced.is_empty();
        if has_more && self.changed.is_some() && write_note(place, young, &self.synced).is_ok() {
            self.synced.clear();
        }
    }
}

fn is_below(name: &str, folder: &str) -> bool {
    name.strip_prefix(folder)
        .is_some_and(|rest| rest.starts_with('/'))
}

fn state_at(place: &Place, path: &str) -> Option<State> {
    fs::metadata(&place.rt, path)
        .ok()
        .map(|seen| State::of(&seen))
}

fn is_in_state(folder: &File, state: State) -> bool {
    match folder.metadata() {
        Ok(known) => State::of(&known) == state,
        Err(_) => false,
    }
}

// The note's own state, and the states that it lists.
fn read_note(place: &Place) -> io::Result<Option<(State, Vec<State>)>> {
    let Some(seen) = place.look_at(NOTE)? else {
        return Ok(None);
    };
    if !seen.is_file() || seen.len() > MOST_BYTES {
        return Ok(None);
    }
    let path = place.path_of(NOTE)?;
    let text = fs::read_to_string(&place.rt, path.as_str())?;
    let states = states_of(place.rt.alloc(), &text);
    Ok(states.map(|states| (State::of(&seen), states)))
}

// Writes over the note, which need not be whole meanwhile: the sum that ends it shows whether it is.
fn write_note(place: &Place, young: Option<State>, synced: &[State]) -> io::Result<()> {
    let alloc = place.rt.alloc();
    let before = read_note(place).unwrap_or(None);
    let file = open_note(place)?;
    let mut states = Vec::new(alloc);
    if let Some(young) = young {
        if is_past(&file, &young)? {
            states.push(young).map_err(no_memory)?;
        }
    }
    add_states(&mut states, synced)?;
    if let Some((_, known)) = before {
        add_states(&mut states, &known)?;
    }
    let text = text_of(alloc, &states)?;
    file.write_all_at(text.as_bytes(), 0)?;
    file.set_len(text.len() as u64)
}

// Whether the clock of the note's file system is past the state by now. Newer systems state it more finely once it was
// looked at.
fn is_past(file: &File, state: &State) -> io::Result<bool> {
    let first = touch(file)?;
    if state.is_before(&first) {
        return Ok(true);
    }
    let second = touch(file)?;
    Ok(state.is_before(&second))
}

fn touch(file: &File) -> io::Result<State> {
    file.write_all_at(HEAD.as_bytes(), 0)?;
    Ok(State::of(&file.metadata()?))
}

fn open_note(place: &Place) -> io::Result<File> {
    if place.look_at(NOTE)?.is_some_and(|seen| !seen.is_file()) {
        return Err(io::Error::from(ErrorKind::InvalidInput));
    }
    let path = place.path_of(NOTE)?;
    let mut how = OpenOptions::new();
    how.write(true).create(true).mode(FILE_MODE);
    how.open(&place.rt, path.as_str())
}

// Adds older states of other folders, as far as there is room.
fn add_states(states: &mut Vec<State>, older: &[State]) -> io::Result<()> {
    for state in older {
        let has_newer = states.iter().any(|newer| newer.is_same_node(state));
        if !has_newer && states.len() < MOST_LINES {
            states.push(*state).map_err(no_memory)?;
        }
    }
    Ok(())
}

fn text_of(alloc: Global, states: &[State]) -> io::Result<String> {
    let mut lines = String::new(alloc);
    for state in states {
        let State {
            device,
            inode,
            seconds,
            nanos,
        } = *state;
        lines.push_str(&format!(in alloc; "{device} {inode} {seconds} {nanos}\n")?)?;
    }
    let sum = sum_of(&lines);
    Ok(format!(in alloc; "{HEAD}{lines}{sum}")?)
}

// None where it isn't a whole note.
fn states_of(alloc: Global, text: &str) -> Option<Vec<State>> {
    let rest = text.strip_prefix(HEAD)?;
    let end = rest.rfind('\n')?.checked_add(1)?;
    let (lines, sum) = rest.split_at_checked(end)?;
    if sum.parse::<u64>().ok()? != sum_of(lines) {
        return None;
    }
    let mut states = Vec::new(alloc);
    for line in lines.lines() {
        states.push(state_of(line)?).ok()?;
    }
    Some(states)
}

fn state_of(line: &str) -> Option<State> {
    let mut arguments = line.split(' ');
    Some(State {
        device: arguments.next()?.parse::<u64>().ok()?,
        inode: arguments.next()?.parse::<u64>().ok()?,
        seconds: arguments.next()?.parse::<i64>().ok()?,
        nanos: arguments.next()?.parse::<i64>().ok()?,
    })
}

// By it a note shows that was cut, or of which a part is an older one (FNV-1a of 64 bits).
fn sum_of(text: &str) -> u64 {
    let mut sum = 0xcbf2_9ce4_8422_2325_u64;
    for byte in text.bytes() {
        sum = (sum ^ u64::from(byte)).wrapping_mul(0x100_0000_01b3);
    }
    sum
}
