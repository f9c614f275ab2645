//! The machine's files: each call is one or two of the system's.
ghost use Rattle.std.specs.Prelude.{◌≡◌, [], false, None};
ghost use Rattle.dexasm_world.specs.inner.State.{unknown_files};

use dexasm_world::{Dress, FileKind, Handle, NotMade, NotReplaced, Reading, Refusal, World};
use std::alloc::Global;
use std::cell::Cell;
use std::fs::{File, Metadata, OpenOptions, Permissions};
use std::io::{Error, ErrorKind, Read, Write};
use std::os::unix::fs::{MetadataExt, OpenOptionsExt, PermissionsExt, fchown};
use std::{fs, io};

/// The files that the system shows to this process.
#[derive(Drop)]
pub(crate) struct Machine<'r> {
    rt: &'r HostRuntime,
    error: Cell<Option<Error>>,
}

impl<'r> Machine<'r> {
    pub(crate) fn new(rt: &'r HostRuntime) -> Machine<'r> {
        Machine {
            rt,
            error: Cell::new(None),
        }
    }

    /// The result of the system call. Its error is kept for the second line of a message.
    fn noted<T>(&self, answer: io::Result<T>) -> io::Result<T>
        ensures { result ≡ answer }
    {
        self.error.set(match &answer {
            Ok(_) => None,
            Err(error) => Some(*error),
        });
        answer
    }
}

/// A file that is open for writing.
#[derive(Drop)]
pub(crate) struct Opened(File);

impl Handle for Opened {
    ghost number = { λ _. 0 };
}

/// A file that is open for reading.
#[derive(Drop)]
pub(crate) struct Readable(File);

impl Reading for Readable {
    ghost left = { λ _. None };

    ghost place = { λ _. [] };
}

impl World for Machine<'_> {
    type File = Opened;

    type Reader = Readable;

    // What these files hold is the system's to say.
    ghost is_known = { false };

    ghost files = { λ _. unknown_files };

    ghost apart = { λ world path n known. Prim.cc };

    fn kind_of(&self, path: &str) -> Result<FileKind, Refusal> {
        match self.noted(fs::symlink_metadata(self.rt, path)) {
            Ok(there) => Ok(kind_of_metadata(&there)),
            Err(error) => Err(refusal(&error)),
        }
    }

    fn target(&self, alloc: Global, path: &str) -> Result<String, Refusal> {
        match self.noted(fs::canonicalize(self.rt, path)) {
            Ok(target) => String::from_str(alloc, target.as_str()).map_err(|_| Refusal::Memory),
            Err(error) => Err(refusal(&error)),
        }
    }

    fn may_write(&self, path: &str) -> bool {
        let opened = OpenOptions::new().write(true).open(self.rt, path);
        self.noted(opened).is_ok()
    }

    fn open(&self, path: &str) -> Result<Readable, Refusal> {
        match self.noted(File::open(self.rt, path)) {
            Ok(file) => Ok(Readable(file)),
            Err(error) => Err(refusal(&error)),
        }
    }

    fn read(&self, reader: &mut Readable, piece: &mut [u8]) -> Result<usize, Refusal> {
        let read = self.noted(reader.0.read(piece));
        read.map_err(|error| refusal(&error))
    }

    fn make(&mut self, path: &str, is_private: bool) -> Result<Opened, NotMade> {
        let opened = OpenOptions::new()
            .write(true)
            .create_new(true)
            .mode(if is_private { 0o600 } else { 0o666 })
            .open(self.rt, path);
        match self.noted(opened) {
            Ok(file) => Ok(Opened(file)),
            Err(error) => Err(not_made(&error)),
        }
    }

    fn dress(&mut self, file: &Opened, dress: Dress) -> Result<(), Refusal> {
        let _ = fchown(&file.0, Some(dress.user), Some(dress.group));
        let set = self.noted(file.0.set_permissions(Permissions::from_mode(dress.mode)));
        set.map_err(|error| refusal(&error))
    }

    fn put(&mut self, file: &mut Opened, piece: &[u8]) -> Result<usize, Refusal> {
        let put = self.noted(file.0.write(piece));
        put.map_err(|error| refusal(&error))
    }

    fn keep(&mut self, file: &mut Opened) -> Result<(), Refusal> {
        let kept = self.noted(file.0.sync_all());
        kept.map_err(|error| refusal(&error))
    }

    fn replace(&mut self, from: &str, to: &str) -> Result<(), NotReplaced> {
        match self.noted(fs::rename(self.rt, from, to)) {
            Ok(()) => Ok(()),
            Err(error) => Err(not_replaced(&error)),
        }
    }

    fn remove(&mut self, path: &str) -> Result<(), Refusal> {
        fs::remove_file(self.rt, path).map_err(|error| refusal(&error))
    }

    fn begin(&mut self, path: &str) -> Result<Opened, Refusal> {
        // (to ask for a new one where there is one is refused in some sticky folders)
        let opened = match OpenOptions::new()
            .write(true)
            .truncate(true)
            .open(self.rt, path)
        {
            Err(error) if error.kind() == ErrorKind::NotFound => File::create(self.rt, path),
            opened => opened,
        };
        match self.noted(opened) {
            Ok(file) => Ok(Opened(file)),
            Err(error) => Err(refusal(&error)),
        }
    }

    fn error(&self) -> Option<Error> {
        self.error.get()
    }
}

fn kind_of_metadata(there: &Metadata) -> FileKind {
    let dress = Dress {
        mode: there.mode(),
        user: there.uid(),
        group: there.gid(),
    };
    if there.is_symlink() {
        FileKind::Link
    } else if !there.is_file() {
        FileKind::Device
    } else if there.nlink() == 1 {
        FileKind::Alone(dress)
    } else {
        FileKind::Shared(dress)
    }
}

fn refusal(error: &Error) -> Refusal {
    match error.kind() {
        ErrorKind::NotFound => Refusal::Missing,
        ErrorKind::OutOfMemory => Refusal::Memory,
        _ => Refusal::Other,
    }
}

/// Whether the name is taken, or the folder takes no file of this name.
fn not_made(error: &Error) -> NotMade {
    match error.kind() {
        ErrorKind::AlreadyExists => NotMade::Taken,
        ErrorKind::PermissionDenied => NotMade::Closed,
        ErrorKind::ReadOnlyFilesystem => NotMade::Closed,
        ErrorKind::InvalidFilename => NotMade::Closed,
        _ => NotMade::Failed(refusal(error)),
    }
}

/// Whether OUT keeps its place, though it can be written: a mount point, or another user's file in a sticky folder.
fn not_replaced(error: &Error) -> NotReplaced {
    match error.kind() {
        ErrorKind::PermissionDenied | ErrorKind::ResourceBusy => NotReplaced::Fixed,
        _ => NotReplaced::Failed(refusal(error)),
    }
}
