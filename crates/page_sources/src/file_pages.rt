ghost use Rattle.std.specs.Prelude.{◌≡◌, ◌<◌, ◌^◌, ℕ, List, Option, None, length};
ghost use Rattle.page_sources.specs.declared.page_sources.PageGot.TheVariants.{Failed};
ghost use Rattle.page_sources.specs.PageReads.{PageReadDoes};
ghost use Rattle.page_sources.specs.FileForms.{FileState, IsShorter, faults_after};

use crate::{PageGot, PageSource};
use span_io::{count_failure, read_retrying};
use std::io::{ErrorKind, Read, Result, Seek, SeekFrom};
use std::marker::Model;

/// How often a seek is made before a signal's interruption counts as a failure, as `span_io` does for a read.
const TRIES: u32 = 16;

/// A page source over a file of the standard library, or over none. As a source it tells no bytes. A read seeks its
/// place and then reads until the buffer is full or the file ends; whatever fails, the read counts one fault.
/// A call that a signal interrupts is made again, and fails after 16 tries.
///
/// A read that succeeds says nothing of what the file holds: that is only tested.
#[derive(Drop)]
pub struct FilePages<F> {
    file: Option<F>,
    faults: u64,
}

impl<F> Model for FilePages<F> {
    ghost Value = { FileState F };

    ghost view = { λ source. record { file = source.file; faults = source.faults } };

    ghost invariant = { λ source. source.faults < 2 ^ 64 };
}

impl<F: Read + Seek + Drop> FilePages<F> {
    /// A source of the file, or one that fails each read if there is no file.
    pub fn of(file: Option<F>) -> FilePages<F>
        ensures { result ≡ record { file = file; faults = 0 } }
    {
        FilePages { file, faults: 0 }
    }
}

/// Seeks, and seeks again if a signal interrupted it.
fn seek_retrying<F: Seek>(file: &mut F, at: u64) -> Result<u64> {
    for _ in 1..TRIES {
        match file.seek(SeekFrom::Start(at)) {
            Err(error) if error.kind() == ErrorKind::Interrupted => {}
            answer => return answer,
        }
    }
    file.seek(SeekFrom::Start(at))
}

/// Reads until the buffer is full or the file ends.
fn fill<F: Read>(file: &mut F, into: &mut [u8]) -> PageGot
    ensures fewer { IsShorter (length into.new) result }
{
    let mut count = 0;
    'pieces: while count < into.len() {
        match read_retrying(file, &mut into[count..]) {
            Ok(0) => return PageGot::Short(count),
            Ok(more) => count += more,
            Err(_) => return PageGot::Failed,
        }
    }
    PageGot::All
}

/// Reads the file's bytes from the place `at` on.
fn read_at<F: Read + Seek>(file: &mut F, at: u64, into: &mut [u8]) -> PageGot
    ensures fewer { IsShorter (length into.new) result }
{
    match seek_retrying(file, at) {
        Ok(_) => fill(file, into),
        Err(_) => PageGot::Failed,
    }
}

impl<F: Read + Seek + Drop> PageSource for FilePages<F> {
    ghost holds = { λ source. None };

    ghost faults = { λ source. source.faults };

    fn read(&mut self, at: u64, into: &mut [u8]) -> PageGot
        ensures outcome { PageReadDoes None self.old.faults self.new.faults at into.new result }
        ensures unchanged { ◌≡◌ {A = Option (List ℕ)} None None }
        ensures fault_range { self.new.faults < 2 ^ 64 }

        ensures fault_count { self.new.faults ≡ faults_after self.old.faults result }
        ensures no_file { self.old.file ≡ None → result ≡ Failed }
    {
        let got = match &mut self.file {
            Some(file) => read_at(file, at, into),
            None => PageGot::Failed,
        };
        if matches!(got, PageGot::Failed) {
            count_failure(&mut self.faults);
        }
        got
    }

    fn faults(&self) -> u64
        ensures fault_count { result ≡ self.now.faults }
    {
        self.faults
    }
}
