//! The operating system's disk as a store meets it. No contract says what the disk does.

ghost use Rattle.std.specs.Prelude.{None, OnOk};
ghost use Rattle.std.specs.Io.KnownBytes.{Appends};
ghost use Rattle.edge_io.specs.Disk.{Takes, Touches, created, written, synced, renamed, folder_synced, removed};

use crate::disk::Disk;
use std::alloc::{AllocError, Global};
use std::fs::{OpenFile, Permissions};
use std::io::Write;
use std::{fs, io, rt};

/// The longest name of a file beside, in bytes, behind the name of its folder.
pub const BESIDE: usize = 24;

/// The names beside that are tried. A program that was killed may have left a file at some of them.
const TRIES: u64 = 1_000;

/// The links that are followed from one name, as Linux does.
const LINKS: u64 = 40;

/// A file to be replaced, and the file beside it.
#[derive(Drop)]
pub struct RealDisk<'a, R: rt::Files> {
    rt: &'a R,
    name: &'a str,
    // The mode of the file that is replaced. None: no file has the name.
    mode: Option<Permissions>,
    // The name of the file beside.
    beside: &'a mut String,
    file: Option<R::File>,
}

impl<'a, R: rt::Files> RealDisk<'a, R> {
    /// Nothing is beside yet. The text has room for the name of the file beside.
    pub fn new(
        rt: &'a R,
        name: &'a str,
        mode: Option<Permissions>,
        beside: &'a mut String,
    ) -> RealDisk<'a, R> {
        RealDisk {
            rt,
            name,
            mode,
            beside,
            file: None,
        }
    }
}

#[tactic(auto, using(crate::proofs::Crashes::untold_touch, crate::proofs::Crashes::untold_take))]
impl<'a, R: rt::Files> Disk for RealDisk<'a, R> {
    ghost trace = { λ _. None };

    fn create(&mut self) -> io::Result<()> {
        for number in 0..TRIES {
            name_folder(self.beside, self.name)?;
            write!(self.beside, ".soroban-store-{number}")?;
            match fs::File::create_new(self.rt, self.beside.as_str()) {
                Ok(file) => {
                    self.file = Some(file);
                    return Ok(());
                }
                Err(error) if error.kind() == io::ErrorKind::AlreadyExists => {}
                Err(error) => return Err(error),
            }
        }
        Err(io::Error::from(io::ErrorKind::AlreadyExists))
    }

    fn write(&mut self, bytes: &[u8]) -> io::Result<()> {
        let Some(file) = &mut self.file else {
            return Err(io::Error::from(io::ErrorKind::NotFound));
        };
        if let Some(mode) = self.mode.take() {
            file.set_permissions(mode)?;
        }
        write_whole(file, bytes)
    }

    fn sync(&mut self) -> io::Result<()> {
        match &self.file {
            Some(file) => file.sync_all(),
            None => Err(io::Error::from(io::ErrorKind::NotFound)),
        }
    }

    fn rename(&mut self) -> io::Result<()> {
        fs::rename(self.rt, self.beside.as_str(), self.name)
    }

    fn sync_folder(&mut self) -> io::Result<()> {
        name_folder(self.beside, self.name)?;
        self.beside.push('.')?;
        fs::open(self.rt, self.beside.as_str())?.sync_all()
    }

    fn remove(&mut self) -> io::Result<()> {
        fs::remove_file(self.rt, self.beside.as_str())
    }
}

/// Writes all of the bytes.
pub fn write_whole<W: Write>(out: &mut W, bytes: &[u8]) -> io::Result<()>
    ensures { OnOk result (Appends (W.contents out.old) (W.contents out.new) bytes.now) }
{
    out.write_all(bytes)
}

/// Writes the folder of a path into the text, up to the last slash. The text is empty if the path has none.
fn name_folder(text: &mut String, path: &str) -> Result<(), AllocError> {
    text.clear();
    if let Some((folder, _)) = path.rsplit_once('/') {
        text.push_str(folder)?;
        text.push('/')?;
    }
    Ok(())
}

/// Replaces a path that is a symbolic link by the path that the link leads to, as far as links lead. Takes memory only if it is
/// a link.
pub fn follow<R: rt::Files>(rt: &R, alloc: Global, path: &mut String) -> io::Result<()> {
    for _ in 0..LINKS {
        match fs::symlink_metadata(rt, path.as_str()) {
            Ok(about) if about.is_symlink() => {}
            Err(error) if error.kind() != io::ErrorKind::NotFound => return Err(error),
            _ => return Ok(()),
        }
        let link = rt.read_link(alloc, path.as_str())?;
        let target = link.as_path().as_str();
        let mut next = String::new(alloc);
        if !target.starts_with('/') {
            name_folder(&mut next, path.as_str())?;
        }
        next.push_str(target)?;
        path.clear();
        path.push_str(next.as_str())?;
    }
    Err(io::Error::from(io::ErrorKind::FilesystemLoop))
}
