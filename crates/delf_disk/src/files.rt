//! The files of a disk, and the calls of the system. No clause says what bytes go through them.
ghost use Rattle.std.specs.Prelude.{◌≡◌, IfOk, string_bytes};
ghost use Rattle.delf_disk.specs.Paths.{path_in, LieIn};

use crate::area::Area;
use std::alloc::{AllocError, Global};
use std::fs::{File, Files, OpenOptions};
use std::io;
use std::os::unix::fs::{FileExt, OpenOptionsExt};

/// Where the files of a disk lie.
#[derive(Drop)]
pub struct Paths {
    folder: String,
    journal: String,
    vault: String,
}

// The path of a file in a folder. The folder that a program runs in has the empty path.
fn path_of(alloc: Global, folder: &str, name: &str) -> Result<String, AllocError>
    ensures { IfOk result (λ path. string_bytes path ≡ path_in folder.now name.now) }
{
    if folder.is_empty() {
        return String::from_str(alloc, name);
    }
    let mut path = String::from_str(alloc, folder)?;
    path.push_str("/")?;
    path.push_str(name)?;
    Ok(path)
}

impl Paths {
    /// Those of the files in this folder.
    pub(crate) fn of(alloc: Global, folder: &str) -> Result<Paths, AllocError>
        ensures { IfOk result (LieIn folder.now) }
    {
        Ok(Paths {
            folder: path_of(alloc, folder, ".")?,
            journal: path_of(alloc, folder, "delf.journal")?,
            vault: path_of(alloc, folder, "delf.vault")?,
        })
    }
}

/// The open file of one area.
#[derive(Drop)]
pub struct OpenArea {
    file: File,
    /// It was written since the last sync that succeeded, as far as is known.
    written: bool,
}

impl OpenArea {
    fn len(&self) -> io::Result<u64> {
        Ok(self.file.metadata()?.len())
    }

    fn read(&self, at: u64, buf: &mut [u8]) -> io::Result<()> {
        self.file.read_exact_at(buf, at)
    }

    fn write(&mut self, at: u64, bytes: &[u8]) -> io::Result<()> {
        self.written = true;
        self.file.write_all_at(bytes, at)
    }

    // The system drops what it could not bring to the medium, and usually answers Ok the next time
    // all the same. So a sync that failed stays failed to the caller, who has to make no more calls.
    fn sync(&mut self) -> io::Result<()> {
        if self.written {
            self.file.sync_data()?;
            self.written = false;
        }
        Ok(())
    }
}

// Opens a path, on a descriptor above those of the standard streams. Where one of those is closed, the
// system would give its descriptor to the file, and printed lines would go into the file.
fn open<R: Files<File = File>>(rt: &R, how: &OpenOptions, path: &str) -> io::Result<File> {
    how.open(rt, path)?.try_clone()
}

// Opens the file at a path, or makes it for its owner alone.
fn open_file<R: Files<File = File>>(rt: &R, path: &str) -> io::Result<File> {
    let mut how = OpenOptions::new();
    how.read(true).write(true).create(true).mode(0o600);
    open(rt, &how, path)
}

/// The open files of both areas.
#[derive(Drop)]
pub struct OpenFiles {
    journal: OpenArea,
    vault: OpenArea,
}

impl OpenFiles {
    // A file that another run of the program may have written counts as written, so that the first
    // sync covers it.
    fn of(journal: File, vault: File) -> OpenFiles {
        OpenFiles {
            journal: OpenArea {
                file: journal,
                written: true,
            },
            vault: OpenArea {
                file: vault,
                written: true,
            },
        }
    }

    pub(crate) fn len(&self, area: Area) -> io::Result<u64> {
        match area {
            Area::Journal => self.journal.len(),
            Area::Vault => self.vault.len(),
        }
    }

    pub(crate) fn read(&self, area: Area, at: u64, buf: &mut [u8]) -> io::Result<()> {
        match area {
            Area::Journal => self.journal.read(at, buf),
            Area::Vault => self.vault.read(at, buf),
        }
    }

    pub(crate) fn write(&mut self, area: Area, at: u64, bytes: &[u8]) -> io::Result<()> {
        match area {
            Area::Journal => self.journal.write(at, bytes),
            Area::Vault => self.vault.write(at, bytes),
        }
    }

    pub(crate) fn sync(&mut self) -> io::Result<()> {
        self.journal.sync()?;
        self.vault.sync()
    }
}

// Opens or makes both files, and syncs their folder, so that their names outlast a crash.
//
// The lock on the journal comes before all else that the store would show. The vault has one of its own: where both names
// lead to one file, or two folders share one, the second lock is refused. A lock goes with the open file, so the end of
// the process, also by a kill, gives it back.
fn open_files<R: Files<File = File>>(rt: &R, paths: &Paths) -> io::Result<OpenFiles> {
    let journal = open_file(rt, paths.journal.as_str())?;
    journal.try_lock()?;
    let vault = open_file(rt, paths.vault.as_str())?;
    vault.try_lock()?;
    let mut how = OpenOptions::new();
    how.read(true);
    open(rt, &how, paths.folder.as_str())?.sync_all()?;
    Ok(OpenFiles::of(journal, vault))
}

/// The files of a disk, which are opened by its first call.
#[derive(Drop)]
pub struct Lazy {
    paths: Paths,
    open: Option<OpenFiles>,
}

fn not_open() -> io::Error {
    io::ErrorKind::NotFound.into()
}

impl Lazy {
    /// Files that are not opened yet.
    pub(crate) fn of(paths: Paths) -> Lazy
        ensures { result.paths ≡ paths }
    {
        Lazy { paths, open: None }
    }

    // The files, opened now. Where they could not be opened, the next call tries again.
    fn open<R: Files<File = File>>(&mut self, rt: &R) -> io::Result<&mut OpenFiles> {
        if self.open.is_none() {
            self.open = Some(open_files(rt, &self.paths)?);
        }
        self.open.as_mut().ok_or_else(not_open)
    }

    pub(crate) fn len<R: Files<File = File>>(&mut self, rt: &R, area: Area) -> io::Result<u64> {
        self.open(rt)?.len(area)
    }

    pub(crate) fn read<R: Files<File = File>>(
        &mut self,
        rt: &R,
        area: Area,
        at: u64,
        buf: &mut [u8],
    ) -> io::Result<()> {
        if let Some(open) = &self.open {
            return open.read(area, at, buf);
        }
        self.open(rt)?.read(area, at, buf)
    }

    pub(crate) fn write<R: Files<File = File>>(
        &mut self,
        rt: &R,
        area: Area,
        at: u64,
        bytes: &[u8],
    ) -> io::Result<()> {
        if let Some(open) = &mut self.open {
            return open.write(area, at, bytes);
        }
        self.open(rt)?.write(area, at, bytes)
    }

    pub(crate) fn sync<R: Files<File = File>>(&mut self, rt: &R) -> io::Result<()> {
        if let Some(open) = &mut self.open {
            return open.sync();
        }
        self.open(rt)?.sync()
    }
}
