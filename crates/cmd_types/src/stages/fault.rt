// What the stages before a command find.

use repo_info::MemberFault;

/// A file that states the cluster.
#[derive(Clone, Copy, Debug, PartialEq, Eq)]
pub enum ControlFile {
    Control,
    Version,
}

/// Why a command doesn't reach its own part, in the order in which refusals come.
#[derive(Debug, Drop)]
pub enum StageFault {
    /// The configuration that the arguments name isn't there.
    ConfigMissing {
        path: String,
    },
    /// The configuration has more than `limit` bytes.
    ConfigLong {
        path: String,
        limit: u64,
    },
    /// Another program has the lock.
    Held {
        name: String,
    },
    ControlMissing {
        file: ControlFile,
    },
    /// The control file has fewer than 16 bytes.
    ControlShort {
        length: u64,
    },
    VersionText,
    VersionUnsupported {
        version: u64,
    },
    /// Neither member of the archive pair is there.
    StanzaMissing {
        stanza: String,
    },
    /// Neither member of the info pair can be read.
    InfoDamaged {
        name: String,
        main: MemberFault,
        copy: MemberFault,
    },
}
