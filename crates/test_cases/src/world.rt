// The devices of a case, and what they are to hold.
use crate::devices::{Around, Fail, Ran, disk_of, pg_of, prepare, run_on, workers_of};
use crate::node::{Node, Placed};
use memory_devices::{MemDataFolder, MemDisk};
use std::alloc::{AllocError, Global};
use std::collections::BTreeMap;
use std::mem::replace;

/// What is to be at a path; where it only may be, nothing there is right too.
#[derive(Drop)]
pub(crate) struct Want {
    pub node: Node,
    pub may: bool,
}

/// By the path below `repo/`, `spool/` or `pg/`.
pub(crate) type Wanted = BTreeMap<String, Want>;

/// The seconds at which files of the data folder were written, by the same paths; others were at 0.
pub(crate) type Times = BTreeMap<String, u64>;

/// The repository, the spool and the data folder are made of what is required where there is none as a command begins.
#[derive(Drop)]
pub(crate) struct World {
    pub alloc: Global,
    pub wanted: Wanted,
    pub times: Times,
    pub around: Around,
    pub repo: Option<MemDisk>,
    pub spool: Option<MemDisk>,
    pub pg: Option<MemDataFolder>,
    /// The arguments of the last command, and what it left besides these.
    pub asked: Vec<String>,
    pub ran: Option<Ran>,
    /// Whether what it left hasn't been looked at.
    pub open: bool,
    pub noted: u64,
    /// What was found wrong first.
    pub wrong: String,
}

impl World {
    pub(crate) fn new(alloc: Global) -> Self {
        World {
            alloc,
            wanted: BTreeMap::new(alloc),
            times: BTreeMap::new(alloc),
            around: Around {
                config: None,
                server: Vec::new(alloc),
                cuts: Vec::new(alloc),
                turns: Vec::new(alloc),
                seconds: Vec::new(alloc),
                worker: false,
                held: Vec::new(alloc),
                fails: Vec::new(alloc),
                width: None,
            },
            repo: None,
            spool: None,
            pg: None,
            asked: Vec::new(alloc),
            ran: None,
            open: false,
            noted: 0,
            wrong: String::new(alloc),
        }
    }

    /// Notes what is wrong, where nothing was so far.
    pub(crate) fn tell(&mut self, what: &str) -> Result<(), AllocError> {
        if self.wrong.is_empty() {
            self.wrong.push_str(what)?;
        }
        Ok(())
    }

    /// Gives what was found wrong first, and forgets it.
    pub(crate) fn take_wrong(&mut self) -> String {
        replace(&mut self.wrong, String::new(self.alloc))
    }

    /// Requires this.
    pub(crate) fn want(&mut self, all: Vec<Placed>) -> Result<(), AllocError> {
        for Placed { path, node } in all {
            self.wanted.insert(path, Want { node, may: false })?;
        }
        Ok(())
    }

    /// Requires this where nothing is required so far, and lets it be absent.
    pub(crate) fn allow(&mut self, all: Vec<Placed>) -> Result<(), AllocError> {
        for Placed { path, node } in all {
            if !self.wanted.contains_key(&path) {
                self.wanted.insert(path, Want { node, may: true })?;
            }
        }
        Ok(())
    }

    /// That call of the device is to fail.
    pub(crate) fn fail_at(&mut self, device: &str, number: u64) -> Result<(), AllocError> {
        let device = String::from_str(self.alloc, device)?;
        self.around.fails.push(Fail { device, number })?;
        Ok(())
    }

    /// Makes the repository, the spool and the data folder where they aren't there.
    pub(crate) fn make(&mut self) -> Result<(), AllocError> {
        if self.repo.is_none() {
            self.repo = Some(disk_of(self.alloc, "repo", &self.wanted, &self.around)?);
        }
        if self.spool.is_none() {
            self.spool = Some(disk_of(self.alloc, "spool", &self.wanted, &self.around)?);
        }
        if self.pg.is_none() {
            self.pg = pg_of(self.alloc, &self.wanted, &self.times, &self.around)?;
        }
        Ok(())
    }

    /// Runs the program with these arguments. No call of the next command is to fail.
    pub(crate) fn go(&mut self, words: Vec<String>) -> Result<(), AllocError> {
        self.make()?;
        let ready = prepare(self.alloc, &self.around)?;
        let (Some(repo), Some(spool), Some(pg)) = (
            self.repo.take(),
            self.spool.take(),
            self.pg.take(),
        ) else {
            return self.tell("a folder of the data folder is missing");
        };
        let links = workers_of(self.alloc, &self.wanted, &self.around, &repo, &pg)?;
        let (ran, repo, spool, pg) = run_on(self.alloc, &words, ready, links, repo, spool, pg);
        self.repo = Some(repo);
        self.spool = Some(spool);
        self.pg = Some(pg);
        self.ran = Some(ran);
        self.asked = words;
        self.around.fails = Vec::new(self.alloc);
        self.open = true;
        Ok(())
    }
}
