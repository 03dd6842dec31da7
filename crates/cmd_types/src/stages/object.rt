// The objects that are handed to the program, by name.

/// An object that is handed to the program.
#[derive(Clone, Copy, Debug, PartialEq, Eq)]
pub enum Object {
    Repo,
    Spool,
    TheDataFolder,
    Server,
    Others,
    Clock,
    Locks,
    Config,
    Output,
}
