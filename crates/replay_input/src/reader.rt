// The bytes of standard input, one after the other, through a buffer of its own: words and numbers.
ghost use Rattle.std.specs.Prelude.{◌≡◌, ◌-◌, ◌≤◌};
ghost use Rattle.replay_input.specs.Counts.{IsPrefixLen};

use replay_output::Number;
use std::io::Read;

// The byte that is looked at, where the next ones stand in the buffer, and how many bytes may still be read. No contract can say that
// an input ends, so every loop over it ends by that number, which is 0 once the input has ended.
#[derive(Drop)]
pub struct Reader<'a, I: Input> {
    input: &'a I,
    buffer: [u8; 4096],
    at: usize,
    filled: usize,
    byte: u8,
    pub left: usize,
    ghost within: { filled ≤ 4096 },
}

impl<'a, I: Input> Reader<'a, I> {
    // Some fifteen times the longest list of cases.
    const MOST_BYTES: usize = 67108864;

    pub fn new(input: &'a I) -> Self {
        let mut reader = Reader {
            input,
            buffer: [0; 4096],
            at: 0,
            filled: 0,
            byte: b'\n',
            left: Self::MOST_BYTES,
        };
        reader.refill();
        reader
    }

    // The end counts as a line feed, so that whatever is missing ends like a line.
    fn end(&mut self)
        ensures { self.new.left ≡ 0 }
    {
        self.byte = b'\n';
        self.left = 0;
    }

    // The first of the next bytes. A read that fails ends the input.
    fn refill(&mut self)
        ensures { self.new.left ≤ self.old.left }
    {
        match self.input.reader().read(&mut self.buffer) {
            Ok(0) | Err(_) => self.end(),
            Ok(filled) => {
                self.byte = self.buffer[0];
                self.at = 1;
                self.filled = filled;
            }
        }
    }

    // The next byte.
    fn advance(&mut self)
        ensures { self.new.left ≤ self.old.left - 1 }
    {
        if self.left == 0 {
            self.end();
            return;
        }
        self.left -= 1;
        if self.at < self.filled {
            self.byte = self.buffer[self.at];
            self.at += 1;
        } else {
            self.refill();
        }
    }

    // The next line's first byte.
    pub(crate) fn skip_line(&mut self)
        ensures { self.new.left ≤ self.old.left - 1 }
    {
        // Only the input tells where the line ends.
        while self.left > 0 && self.byte != b'\n' {
            self.advance();
        }
        self.advance();
    }

    // The bytes up to a space or the line's end, as many as word holds.
    pub(crate) fn read_word(&mut self, word: &mut [u8]) -> usize
        ensures counts { IsPrefixLen result word.new }
        ensures left { self.new.left ≤ self.old.left }
    {
        for (count, byte) in word.iter_mut().enumerate() {
            if matches!(self.byte, b' ' | b'\n') {
                return count;
            }
            *byte = self.byte;
            self.advance();
        }
        word.len()
    }

    // The next number of the line behind a space, or 0 where none is there; the greatest where it is too large.
    pub(crate) fn read_number(&mut self) -> usize
        ensures { self.new.left ≤ self.old.left }
    {
        if self.byte == b' ' {
            self.advance();
        }
        let mut value: usize = 0;
        // Only the input tells where the number ends.
        while self.left > 0 && self.byte.is_ascii_digit() {
            value = value
                .saturating_mul(10)
                .saturating_add(usize::from(self.byte - b'0'));
            self.advance();
        }
        value
    }

    // A length and that many numbers, as many as list holds.
    pub(crate) fn read_list<T: Number>(&mut self, list: &mut [T]) -> usize
        ensures counts { IsPrefixLen result list.new }
        ensures left { self.new.left ≤ self.old.left }
    {
        let count = self.read_number().min(list.len());
        for number in list[..count].iter_mut() {
            *number = T::narrowed(self.read_number());
        }
        count
    }
}
