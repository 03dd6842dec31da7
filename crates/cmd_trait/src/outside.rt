// What is handed to the program.
ghost use Rattle.cmd_types.specs.World.{World};
ghost use Rattle.worker_pool.specs.Pools.{links_in};

use archive_lookup::OtherProcesses;
use base_devices::{
    Clock, DataFolder, Disk, InputFiles, Link, Locks, OutputStream, Scheduler, ServerConnection,
};
use worker_pool::Pool;

/// The objects that the program works on: the repository, the spool, the data folder, the connection to the
/// server, other processes, the clock, the locks, the configuration, the output, and the workers with the choice among
/// them.
#[derive(Drop)]
pub struct Outside<D, S, T, V, A, C, K, I, O, L, U> {
    pub repo: D,
    pub spool: S,
    pub tree: T,
    pub server: V,
    pub processes: A,
    pub clock: C,
    pub locks: K,
    pub config: I,
    pub out: O,
    pub pool: Pool<L, U>,
}

/// What the objects report, as one value.
pub trait Modelled {
    ghost known: { Self → World };
}

impl<
    D: Disk,
    S: Disk,
    T: DataFolder,
    V: ServerConnection,
    A: OtherProcesses<D, S>,
    C: Clock,
    K: Locks,
    I: InputFiles,
    O: OutputStream,
    L: Link,
    U: Scheduler,
> Modelled for Outside<D, S, T, V, A, C, K, I, O, L, U> {
    ghost known = { λ o. record {
      repo = D.state o.repo;
      spool = S.state o.spool;
      tree = T.state o.tree;
      server = V.state o.server;
      others = A.state o.processes;
      clock = C.state o.clock;
      locks = record {
        ever_taken = (K.state o.locks).ever_taken;
        refusals = (K.state o.locks).refusals;
        faults = (K.state o.locks).faults;
      };
      config = I.state o.config;
      out = O.state o.out;
      links = links_in L.link_state o.pool;
    } };
}
