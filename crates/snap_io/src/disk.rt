//! The system's files. Each method makes one call of the system, and records it with its answer: what is recorded
//! here is what the contracts of the store over real files speak of.
ghost use Rattle.std.specs.Prelude.{◌≡◌, [], ◌∷◌, length, IfOk, OnOk};
ghost use Rattle.std.specs.Io.{ReadsAtMost};
ghost use Rattle.std.specs.Io.KnownBytes.{ReadConsumes, Appends};
ghost use Rattle.snap_io.specs.Calls.{looks, looks_at_link, opens, makes_folders, creates_new, sets_bits, opens_to_append, writes, renames, removes, lists, done_or_failed, found_or_failed, made_or_taken, read_call, tell_call};
ghost use Rattle.snap_io.specs.Disks.{asked_of};
ghost use Rattle.snap_io.specs.Told.{IsToldAs, IsFoundAs, IsMadeAs};

use crate::answers::{removed, seen, told, told_found, told_made};
use crate::call::{Answer, Asked};
use crate::opening::{append_options, new_file_options};
use crate::outside::Fault;
use crate::record::Record;
use std::alloc::AllocError;
use std::fs::{Files, OpenFile, Permissions};
use std::io::{Read, Write};
use std::os::unix::fs::PermissionsExt;
use std::{fs, io, mem};

/// The files of the system by their paths; a path that does not begin with a slash is one of the working folder.
#[derive(Drop)]
pub struct Disk<R: Files + Alloc + Clone + Drop> {
    rt: R,
    record: Record,
    /// What bytes are read into, kept from call to call; empty until the first.
    buffer: Vec<u8, R::A>,
}

/// How many bytes are asked for at once.
const PIECE: usize = 4096;

impl<R: Files + Alloc + Clone + Drop> Disk<R> {
    pub(crate) fn new(rt: R) -> Disk<R>
        ensures { asked_of result ≡ [] }
    {
        let buffer = Vec::new(rt.alloc());
        Disk {
            rt,
            record: Record::new(),
            buffer,
        }
    }

    pub(crate) fn alloc(&self) -> R::A {
        self.rt.alloc()
    }

    /// The buffer, which is made where it was not given back.
    pub(crate) fn take_buffer(&mut self) -> Result<Vec<u8, R::A>, AllocError>
        ensures same { asked_of self.new ≡ asked_of self.old }
        ensures room { IfOk result (λ buffer. length buffer.items ≡ 4096) }
    {
        let buffer = mem::replace(&mut self.buffer, Vec::new(self.rt.alloc()));
        if buffer.len() == PIECE {
            return Ok(buffer);
        }
        Vec::from_elem(self.rt.alloc(), 0u8, PIECE)
    }

    pub(crate) fn keep_buffer(&mut self, buffer: Vec<u8, R::A>)
        ensures { asked_of self.new ≡ asked_of self.old }
    {
        self.buffer = buffer;
    }

    fn note(&mut self, asked: Asked, answer: Answer, path: &str, bytes: &[u8])
        ensures { asked_of self.new ≡ (asked, answer, path.now, bytes.now) ∷ asked_of self.old }
    {
        self.record = Record::with(&self.record, &asked, &answer, path, bytes);
    }

    /// Notes a call that is done or fails.
    fn done<T>(
        &mut self,
        asked: Asked,
        path: &str,
        bytes: &[u8],
        answer: io::Result<T>,
    ) -> Result<T, Fault>
        ensures told { IsToldAs answer result }
        ensures noted { asked_of self.new
            ≡ (asked, done_or_failed result, path.now, bytes.now) ∷ asked_of self.old }
    {
        let told = told(answer);
        let noted = if told.is_ok() {
            Answer::Done
        } else {
            Answer::Failed
        };
        self.note(asked, noted, path, bytes);
        told
    }

    /// Notes a call that may find nothing at the path. Another error is no missing file.
    fn found<T>(
        &mut self,
        asked: Asked,
        path: &str,
        answer: io::Result<T>,
    ) -> Result<Option<T>, Fault>
        ensures told { IsFoundAs answer result }
        ensures noted { asked_of self.new
            ≡ (asked, found_or_failed result, path.now, []) ∷ asked_of self.old }
    {
        let told = told_found(answer);
        let noted = match &told {
            Ok(Some(_)) => Answer::Done,
            Ok(None) => Answer::Missing,
            Err(Fault) => Answer::Failed,
        };
        self.note(asked, noted, path, &[]);
        told
    }

    /// What stands at the path, after the links there.
    pub(crate) fn look(&mut self, path: &str) -> Answer
        ensures { asked_of self.new ≡ looks path.now result ∷ asked_of self.old }
    {
        let answer = seen(fs::metadata(&self.rt, path));
        self.note(Asked::Look, answer, path, &[]);
        answer
    }

    /// What stands at the path itself, which may be a link.
    pub(crate) fn look_at_link(&mut self, path: &str) -> Answer
        ensures { asked_of self.new ≡ looks_at_link path.now result ∷ asked_of self.old }
    {
        let answer = seen(fs::symlink_metadata(&self.rt, path));
        self.note(Asked::LookAtLink, answer, path, &[]);
        answer
    }

    /// Opens the file to read it, where there is one.
    pub(crate) fn open(&mut self, path: &str) -> Result<Option<R::File>, Fault>
        ensures { asked_of self.new ≡ opens path.now (found_or_failed result) ∷ asked_of self.old }
    {
        let file = fs::open(&self.rt, path);
        self.found(Asked::Open, path, file)
    }

    /// Puts the next bytes of the file at the front of the buffer. None for a buffer that has room is the end.
    pub(crate) fn read(&mut self, file: &mut R::File, buffer: &mut [u8]) -> Result<usize, Fault>
        ensures bound { ReadsAtMost result buffer.new }
        ensures given { ReadConsumes (R.File.Read.remaining file.old)
            (R.File.Read.remaining file.new) result buffer.new }
        ensures noted { asked_of self.new ≡ read_call result buffer.new ∷ asked_of self.old }
    {
        match file.read(buffer) {
            Ok(count) => {
                self.note(Asked::Read, Answer::Done, "", &buffer[..count]);
                Ok(count)
            }
            Err(_) => {
                self.note(Asked::Read, Answer::Failed, "", &[]);
                Err(Fault)
            }
        }
    }

    /// Makes the folder and those above it, where they are missing.
    pub(crate) fn make_folders(&mut self, folder: &str) -> Result<(), Fault>
        ensures { asked_of self.new ≡ makes_folders folder.now
            (done_or_failed result) ∷ asked_of self.old }
    {
        let made = fs::create_dir_all(&self.rt, folder);
        self.done(Asked::MakeFolders, folder, &[], made)
    }

    /// Makes the file, where nothing is there, not even a link: with no permission bits but these, or with those that
    /// the system chooses.
    pub(crate) fn create_new(
        &mut self,
        path: &str,
        bits: Option<u32>,
    ) -> Result<Option<R::File>, Fault>
        ensures { asked_of self.new ≡ creates_new path.now bits
            (made_or_taken result) ∷ asked_of self.old }
    {
        let file = new_file_options(bits).open(&self.rt, path);
        let made = told_made(file);
        let noted = match &made {
            Ok(Some(_)) => Answer::Done,
            Ok(None) => Answer::Taken,
            Err(Fault) => Answer::Failed,
        };
        self.note(Asked::CreateNew(bits), noted, path, &[]);
        made
    }

    /// Gives the file these permission bits, whatever the system narrows.
    pub(crate) fn set_bits(&mut self, file: &R::File, bits: u32) -> Result<(), Fault>
        ensures { asked_of self.new ≡ sets_bits bits (done_or_failed result) ∷ asked_of self.old }
    {
        let set = file.set_permissions(Permissions::from_mode(bits));
        self.done(Asked::SetBits(bits), "", &[], set)
    }

    /// Opens the file, or makes it, to add bytes at its end.
    pub(crate) fn open_to_append(&mut self, path: &str) -> Result<R::File, Fault>
        ensures { asked_of self.new ≡ opens_to_append path.now
            (done_or_failed result) ∷ asked_of self.old }
    {
        let file = append_options().open(&self.rt, path);
        self.done(Asked::OpenToAppend, path, &[], file)
    }

    /// Writes all the bytes to the file.
    pub(crate) fn write(&mut self, file: &mut R::File, bytes: &[u8]) -> Result<(), Fault>
        ensures taken { OnOk result (Appends (R.File.Write.contents file.old)
            (R.File.Write.contents file.new) bytes.now) }
        ensures noted { asked_of self.new
            ≡ writes bytes.now (done_or_failed result) ∷ asked_of self.old }
    {
        let written = file.write_all(bytes);
        self.done(Asked::Write, "", bytes, written)
    }

    /// Moves the file to the other's place, in one step.
    pub(crate) fn rename(&mut self, from: &str, to: &str) -> Result<(), Fault>
        ensures { asked_of self.new ≡ renames from.now to.now
            (done_or_failed result) ∷ asked_of self.old }
    {
        let moved = fs::rename(&self.rt, from, to);
        self.done(Asked::Rename, from, to.as_bytes(), moved)
    }

    /// Takes the file away, or the link.
    pub(crate) fn remove(&mut self, path: &str) -> Answer
        ensures { asked_of self.new ≡ removes path.now result ∷ asked_of self.old }
    {
        let answer = removed(fs::remove_file(&self.rt, path));
        self.note(Asked::Remove, answer, path, &[]);
        answer
    }

    /// Opens the folder, where there is one.
    pub(crate) fn list(&mut self, folder: &str) -> Result<Option<R::Dir>, Fault>
        ensures { asked_of self.new ≡ lists folder.now
            (found_or_failed result) ∷ asked_of self.old }
    {
        let names = self.rt.open_dir(folder);
        self.found(Asked::List, folder, names)
    }

    /// Puts the next names of the folder at the front of the buffer, each ended by a 0. No bytes for a buffer that has
    /// room are the end.
    pub(crate) fn next(&mut self, names: &mut R::Dir, buffer: &mut [u8]) -> Result<usize, Fault>
        ensures bound { ReadsAtMost result buffer.new }
        ensures given { ReadConsumes (R.Dir.Read.remaining names.old)
            (R.Dir.Read.remaining names.new) result buffer.new }
        ensures noted { asked_of self.new ≡ tell_call result buffer.new ∷ asked_of self.old }
    {
        match names.read(buffer) {
            Ok(count) => {
                self.note(Asked::Next, Answer::Done, "", &buffer[..count]);
                Ok(count)
            }
            Err(_) => {
                self.note(Asked::Next, Answer::Failed, "", &[]);
                Err(Fault)
            }
        }
    }
}
