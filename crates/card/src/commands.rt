// The command that is asked, obeyed.
use crate::arguments::Command;
use crate::statuses::Failure;
use crate::{arguments, finding, listing, recording, telling};
use std::rt::Env;

fn obey(rt: &HostRuntime, command: Command, path: &[u8]) -> Result<(), Failure> {
    match command {
        Command::Record => recording::record(rt, path),
        Command::Read(key) => finding::read(rt, path, key),
        Command::List => listing::list(rt, path),
    }
}

pub fn run(rt: &HostRuntime) -> Result<(), Failure> {
    let Some(command) = arguments::asked(rt) else {
        return Err(telling::wrong_use(rt));
    };
    let mut path = [0u8; 4096];
    match rt.arg(3, &mut path) {
        Ok(n) => obey(rt, command, &path[..n]),
        Err(_) => Err(telling::wrong_use(rt)),
    }
}
