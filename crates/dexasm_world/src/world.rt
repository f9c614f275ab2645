//! The files that a program can reach, and what each call does to them.
ghost use Rattle.std.specs.Prelude.{◌≡◌, ◌≢◌, ◌⊎◌, ◌≤◌, ◌<◌, ℕ, Bool, true, false, List, [], Option, Some, None, length, take, string_bytes, IfOk, OnOk, OnErr};
ghost use Rattle.std.specs.Io.{ReadsAtMost, WritesAtMost};
ghost use Rattle.std.specs.Io.KnownBytes.{ReadConsumes};
ghost use Rattle.dexasm_world.specs.State.{Files, Passes, place_of};
ghost use Rattle.dexasm_world.specs.inner.Steps.{Same, MadeAs, Wrote, Dressed, Kept, Moved, Removed, Begun};
ghost use Rattle.dexasm_world.specs.Safe.{part_path};
ghost use Rattle.dexasm_world.specs.FileKinds.{Caused, IsBarredAt};
ghost use Rattle.dexasm_world.specs.inner.FileKinds.{HasKind, LinkResolvesTo, Opens, HasCause, WhyNotMade, WhyNotReplaced, CanReplace};

use std::alloc::Global;
use std::io;

/// Why a call on the files was refused.
#[derive(Clone, Copy, Debug)]
pub enum Refusal {
    /// There is nothing.
    Missing,
    /// Out of memory.
    Memory,
    /// Anything else.
    Other,
}

/// Why no new file was made.
#[derive(Clone, Copy, Debug)]
pub enum NotMade {
    /// There is something.
    Taken,
    /// The folder takes no new file of this name.
    Closed,
    /// The call was refused.
    Failed(Refusal),
}

/// Why a file wasn't put in another's place.
#[derive(Clone, Copy, Debug)]
pub enum NotReplaced {
    /// The file there stays.
    Fixed,
    /// The call was refused.
    Failed(Refusal),
}

/// The mode and the owner of a file.
#[derive(Clone, Copy, Debug)]
pub struct Dress {
    pub mode: u32,
    pub user: u32,
    pub group: u32,
}

/// The kind of file of a name.
#[derive(Clone, Copy, Debug)]
pub enum FileKind {
    /// A link.
    Link,
    /// A file with this one name.
    Alone(Dress),
    /// A file with several names.
    Shared(Dress),
    /// A device, a pipe or a folder.
    Device,
}

/// A file that is open for writing.
pub trait Handle: Drop {
    // The file's number.
    ghost number: { Self → ℕ };
}

/// A file that is open for reading.
pub trait Reading: Drop {
    // What it has left, where that is known.
    ghost left: { Self → Option (List ℕ) };

    // The place where the file stood when it was opened.
    ghost place: { Self → List ℕ };
}

/// The files that a program can reach.
///
/// Between two calls nothing changes. A call that fails does nothing but what its clause `moments` allows.
pub trait World {
    type File: Handle;

    type Reader: Reading;

    // Whether clauses can speak of these files. They can't of those of a real machine.
    ghost is_known: { Bool };

    // The files now, and at each moment so far.
    ghost files: { Self → Files };

    /// The kind of file of the name, without following a link.
    fn kind_of(&self, path: &str) -> Result<FileKind, Refusal>
        ensures { is_known ≡ true → HasKind (files self.now) path.now result };

    /// The path without links to the same place.
    fn target(&self, alloc: Global, path: &str) -> Result<String, Refusal>
        ensures { is_known ≡ true → LinkResolvesTo string_bytes (files self.now) path.now result };

    /// Whether the file may be written.
    fn may_write(&self, path: &str) -> bool
        ensures { is_known ≡ true → result ≡ false → (files self.now).paths.is_barred path.now ≡ true };

    /// Opens the file that the path resolves to for reading.
    fn open(&self, path: &str) -> Result<Self::Reader, Refusal>
        ensures { is_known ≡ true → Opens Self.Reader.left Self.Reader.place (files self.now) path.now result };

    /// Reads bytes into the piece, and returns how many: 0 for a nonempty piece is the end.
    fn read(&self, reader: &mut Self::Reader, piece: &mut [u8]) -> Result<usize, Refusal>
        ensures bound { ReadsAtMost result piece.new }
        ensures place { is_known ≡ true → Self.Reader.place reader.new ≡ Self.Reader.place reader.old }
        ensures bytes { is_known ≡ true → ReadConsumes (Self.Reader.left reader.old) (Self.Reader.left reader.new) result piece.new }
        ensures cause { is_known ≡ true → Caused result (IsBarredAt (files self.now) (Self.Reader.place reader.old)) };

    /// Creates a file where there is nothing, not even a link. If it is to be private, only its owner may open it from the beginning.
    fn make(&mut self, path: &str, is_private: bool) -> Result<Self::File, NotMade>
        ensures moments { is_known ≡ true → Passes (files self.old) (files self.new)
            (λ t. Same (files self.old).now t ⊎ ((n : ℕ) × ((files self.old).paths.is_plain path.now ≡ true) × MadeAs is_private (place_of (files self.old) path.now) n (files self.old).now t)) }
        ensures made { is_known ≡ true → IfOk result (λ f.
            MadeAs is_private (place_of (files self.old) path.now) (Self.File.number f) (files self.old).now (files self.new).now) }
        ensures plain { is_known ≡ true → OnOk result ((files self.old).paths.is_plain path.now ≡ true) }
        ensures why { is_known ≡ true → WhyNotMade path.now (files self.old) (files self.new) result };

    /// Gives the file a mode, and an owner where the system allows it.
    fn dress(&mut self, file: &Self::File, dress: Dress) -> Result<(), Refusal>
        ensures moments { is_known ≡ true → Passes (files self.old) (files self.new)
            (λ t. Same (files self.old).now t ⊎ Dressed (Self.File.number file.now) dress.mode (files self.old).now t) }
        ensures dressed { is_known ≡ true → OnOk result
            (Dressed (Self.File.number file.now) dress.mode (files self.old).now (files self.new).now) }
        ensures cause { is_known ≡ true → HasCause (files self.old) (files self.new) result };

    /// Writes a front of the piece at the end of the file, which this run has created or emptied, and returns how many bytes.
    fn put(&mut self, file: &mut Self::File, piece: &[u8]) -> Result<usize, Refusal>
        ensures bound { WritesAtMost result piece.now }
        ensures number { is_known ≡ true → Self.File.number file.new ≡ Self.File.number file.old }
        ensures moments { is_known ≡ true → Passes (files self.old) (files self.new)
            (λ t. (k : ℕ) × (k ≤ length piece.now) × Wrote (Self.File.number file.old) (take k piece.now) (files self.old).now t) }
        ensures wrote { is_known ≡ true → IfOk result (λ k.
            Wrote (Self.File.number file.old) (take k piece.now) (files self.old).now (files self.new).now) }
        ensures cause { is_known ≡ true → HasCause (files self.old) (files self.new) result }
        ensures nothing { is_known ≡ true → IfOk result (λ k. k ≡ 0 → 0 < length piece.now → (files self.old).faults < (files self.new).faults) };

    /// Has the disk keep what the file holds.
    fn keep(&mut self, file: &mut Self::File) -> Result<(), Refusal>
        ensures number { is_known ≡ true → Self.File.number file.new ≡ Self.File.number file.old }
        ensures moments { is_known ≡ true → Passes (files self.old) (files self.new)
            (λ t. Wrote (Self.File.number file.old) [] (files self.old).now t) }
        ensures kept { is_known ≡ true → OnOk result (Kept (Self.File.number file.old) (files self.old).now (files self.new).now) }
        ensures cause { is_known ≡ true → HasCause (files self.old) (files self.new) result };

    /// Moves the file at the first path to the second, atomically. Neither is a link.
    fn replace(&mut self, from: &str, to: &str) -> Result<(), NotReplaced>
        ensures moments { is_known ≡ true → CanReplace (files self.old) from.now to.now → Passes (files self.old) (files self.new)
            (λ t. Same (files self.old).now t
            ⊎ Moved (place_of (files self.old) from.now) (place_of (files self.old) to.now) (files self.old).now t) }
        ensures moved { is_known ≡ true → CanReplace (files self.old) from.now to.now → OnOk result
            (Moved (place_of (files self.old) from.now) (place_of (files self.old) to.now) (files self.old).now (files self.new).now) }
        ensures why { is_known ≡ true → CanReplace (files self.old) from.now to.now → WhyNotReplaced to.now (files self.old) (files self.new) result };

    /// Takes the name away, which is no link.
    fn remove(&mut self, path: &str) -> Result<(), Refusal>
        ensures moments { is_known ≡ true → (files self.old).paths.is_plain path.now ≡ true → Passes (files self.old) (files self.new)
            (λ t. Same (files self.old).now t ⊎ Removed (place_of (files self.old) path.now) (files self.old).now t) }
        ensures removed { is_known ≡ true → (files self.old).paths.is_plain path.now ≡ true → OnOk result
            (Removed (place_of (files self.old) path.now) (files self.old).now (files self.new).now) }
        ensures cause { is_known ≡ true → HasCause (files self.old) (files self.new) result }
        ensures left { is_known ≡ true → OnErr result ((files self.old).leftovers < (files self.new).leftovers) };

    /// The file that the path resolves to, emptied, or a new file. A device is as new.
    fn begin(&mut self, path: &str) -> Result<Self::File, Refusal>
        ensures moments { is_known ≡ true → Passes (files self.old) (files self.new)
            (λ t. Same (files self.old).now t ⊎ ((n : ℕ) × Begun (place_of (files self.old) path.now) n (files self.old).now t)) }
        ensures begun { is_known ≡ true → IfOk result (λ f.
            Begun (place_of (files self.old) path.now) (Self.File.number f) (files self.old).now (files self.new).now) }
        ensures cause { is_known ≡ true → HasCause (files self.old) (files self.new) result };

    /// The system's error, if the last call failed, except a `remove`, and the system has one. It is for messages: no clause is about it.
    fn error(&self) -> Option<io::Error>;

    /// A file beside another has a path of its own.
    ghost apart: { (world : Self) (path : List ℕ) (n : ℕ) → is_known ≡ true → (files world).paths.is_plain path ≡ true
        → (files world).paths.is_plain (part_path path n) ≡ true → place_of (files world) (part_path path n) ≢ place_of (files world) path };
}
