// A folder for one test, which the shell fills.
use std::process::Command;
use std::{env, fs, io, process};

/// A folder among the system's temporary ones, with its path.
#[derive(Drop)]
pub struct Scratch {
    rt: HostRuntime,
    pub path: String,
}

impl Scratch {
    /// A new folder among the system's temporary ones.
    pub fn new(rt: HostRuntime, name: &str) -> io::Result<Self> {
        let above = env::temp_dir(&rt)?;
        let id = process::id(rt.process());
        let path = format!(in rt.alloc(); "{}/pgbackrest-{name}-{id}", above.as_path().as_str())?;
        fs::create_dir(&rt, path.as_str())?;
        Ok(Scratch { rt, path })
    }

    pub fn below(&self, name: &str) -> io::Result<String> {
        let path = self.path.as_str();
        Ok(format!(in self.rt.alloc(); "{path}/{name}")?)
    }

    /// Runs the lines in the folder, and returns whether they succeeded.
    pub fn shell(&self, lines: &str) -> io::Result<bool> {
        let mut command = Command::new(self.rt.alloc(), "sh")?;
        command.arg("-ec")?.arg(lines)?;
        command.current_dir(self.path.as_str())?;
        Ok(command.status(&self.rt)?.success())
    }

    pub fn remove(self) -> io::Result<()> {
        fs::remove_dir_all(&self.rt, self.path.as_str())
    }
}
