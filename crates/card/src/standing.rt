// The file that is appended to, as it stands.
use crate::cards::{Card, NoCard};
use crate::files::ENOENT;
use crate::statuses::Failure;
use crate::walking::Unread;
use crate::{cards, files, telling, walking};
use std::fs::File;
use std::io;

// Open for appending behind so many bytes that were checked.
#[derive(Drop)]
pub struct Standing {
    pub file: File,
    pub bytes: usize,
}

// A file that took the number of a standard stream: where that is standard error's, what is said is written to the file.
fn stands_open(rt: &HostRuntime, file: File, bytes: usize) -> Result<Standing, Failure> {
    if cards::is_stream(&file) {
        return Err(telling::stream_closed(rt));
    }
    Ok(Standing { file, bytes })
}

fn open_to_append(rt: &HostRuntime, path: &[u8], bytes: usize) -> Result<Standing, Failure> {
    match files::open_append(rt, path) {
        Ok(file) => stands_open(rt, file, bytes),
        Err(error) => Err(telling::not_opened(rt, path, error)),
    }
}

// Behind a block that does not read no later hand would be found.
fn check(rt: &HostRuntime, path: &[u8], card: &Card, room: &mut [u8]) -> Result<Standing, Failure> {
    match walking::check(rt, card, room) {
        Ok(()) => open_to_append(rt, path, cards::start_of(card.blocks)),
        Err(Unread::Bad(block)) => Err(telling::not_appended(rt, path, block)),
        Err(Unread::NotRead(error)) => Err(telling::not_read(rt, path, error)),
    }
}

// The file, none where it is missing.
pub fn look(rt: &HostRuntime, path: &[u8], room: &mut [u8]) -> Result<Option<Standing>, Failure> {
    match cards::open_card(rt, path) {
        Ok(card) => Ok(Some(check(rt, path, &card, room)?)),
        Err(NoCard::NotOpened(error)) if files::is_error(error, ENOENT) => Ok(None),
        Err(why) => Err(telling::no_card(rt, path, why)),
    }
}

// The folder that a path names, or the one where the program runs.
fn folder_of(path: &[u8]) -> &[u8] {
    match path.iter().rposition(|byte| *byte == b'/') {
        Some(i) => &path[..=i],
        None => b".",
    }
}

// The name of a new file is lost with the power unless its folder is synced. Not every folder can be.
fn sync_folder(rt: &HostRuntime, path: &[u8]) -> io::Result<()> {
    let folder = files::open_read(rt, folder_of(path))?;
    folder.sync_all()
}

fn make(rt: &HostRuntime, path: &[u8]) -> Result<Standing, Failure> {
    match files::create(rt, path) {
        Ok(file) => {
            drop(file);
            if let Err(error) = sync_folder(rt, path) {
                telling::folder_not_synced(rt, path, error);
            }
            open_to_append(rt, path, 0)
        }
        Err(error) => Err(telling::not_made(rt, path, error)),
    }
}

// A file that is missing is made.
pub fn there(rt: &HostRuntime, path: &[u8], file: Option<Standing>) -> Result<Standing, Failure> {
    match file {
        Some(standing) => Ok(standing),
        None => make(rt, path),
    }
}
