// A server that is asked for its system.
ghost use Rattle.std.specs.Prelude.{◌<◌, ◌+◌, ◌^◌, length};

/// Where a server is reached, and as whom.
#[derive(Clone, Copy)]
pub struct Server<'a> {
    /// The folder of its socket.
    pub folder: &'a str,
    pub port: u32,
    pub user: &'a str,
    pub database: &'a str,
    // The first message has both names, and a length of 32 bits.
    ghost short: { length user.now + length database.now + 97 < 2 ^ 32 },
}
