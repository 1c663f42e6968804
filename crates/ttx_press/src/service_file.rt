//! The text of a service in a file.

use std::alloc::Global;
use std::fs::{File, Files};
use ttx_air::TextSource;
use ttx_cycle::{Counted, TextFault};
use ttx_files::read_text;

/// The text of a service in a file, which is opened anew each time: an author may write it again, or put another file in its place.
#[derive(Drop)]
pub struct ServiceFile<'a, R> {
    pub files: &'a R,
    pub path: &'a str,
}

impl<'a, R: Files> TextSource for ServiceFile<'a, R> {
    // No contract says what a file has.
    ghost reads = { λ _ _ _. Unit {0} };

    fn text(&mut self, alloc: Global) -> Result<Vec<u8>, TextFault> {
        match File::open(self.files, self.path) {
            Ok(file) => read_text(alloc, &mut Counted::new(file)),
            Err(_) => Err(TextFault::Read),
        }
    }
}
