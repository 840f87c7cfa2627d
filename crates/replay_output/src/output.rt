// Standard output, through a buffer of its own. A write that fails is passed over.
ghost use Rattle.std.specs.Prelude.{◌≡◌, ◌+◌, ◌≤◌, ◌<◌, set};

use crate::lent::{Number, unchanged};
use std::fmt::{self, Display, Write};

// The buffer, and how many of its bytes are still to be written.
pub struct Output<'a, P: Print> {
    printer: &'a P,
    text: [u8; 4096],
    waiting: usize,
    ghost within: { waiting ≤ 4096 },
}

impl<'a, P: Print> Output<'a, P> {
    pub fn new(printer: &'a P) -> Self {
        Output {
            printer,
            text: [0; 4096],
            waiting: 0,
        }
    }

    // Writes what waits.
    pub fn flush(&mut self)
        ensures { self.new.waiting ≡ 0 }
    {
        let _ = self.printer.write_all(&self.text[..self.waiting]);
        self.waiting = 0;
    }

    // A full buffer is written first.
    pub fn put_byte(&mut self, byte: u8)
        ensures { self.old.waiting < 4096 → (self.new.waiting ≡ self.old.waiting + 1) × (self.new.text ≡ set self.old.text self.old.waiting byte) }
    {
        if self.waiting == self.text.len() {
            self.flush();
        }
        self.text[self.waiting] = byte;
        self.waiting += 1;
    }

    pub fn put_bytes(&mut self, bytes: &[u8]) {
        for byte in bytes {
            self.put_byte(*byte);
        }
    }

    pub fn put<D: Display + Drop>(&mut self, shown: D) {
        let _ = self.write(shown);
    }

    // Each number behind a space.
    fn put_numbers<T: Number>(&mut self, list: &[T]) {
        for number in list {
            self.put_byte(b' ');
            self.put(*number);
        }
    }

    // A lent slice after its call.
    pub fn put_list<T: Number>(&mut self, list: &[T]) {
        if unchanged(list) {
            self.put(" unchanged");
        } else {
            self.put_numbers(list);
        }
    }

    // A part of a slice.
    pub fn put_part(&mut self, list: &[u16]) {
        if list.is_empty() {
            self.put(" empty");
        } else {
            self.put_numbers(list);
        }
    }

    // The part of a line before its slices.
    pub fn put_report<D: Display + Drop>(&mut self, name: D, word: &str, value: usize) {
        let _ = write!(self, "{name} {word} {value}:");
    }
}

impl<'a, P: Print> fmt::Write for Output<'a, P> {
    fn write_str(&mut self, text: &str) -> fmt::Result {
        self.put_bytes(text.as_bytes());
        Ok(())
    }
}

impl<P: Print> Drop for Output<'_, P> {
    // What still waits is written.
    fn drop(mut self) {
        self.flush();
        let Output {
            printer: _,
            text: _,
            waiting: _,
        } = self;
    }
}
