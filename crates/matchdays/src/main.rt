// Prints the match days of the file on standard input. What is printed is `matchday_text`'s promise; here bytes are only
// read and written.
#![tactic(auto)]

ghost use Rattle.std.specs.Prelude.{◌≡◌, ◌≤◌, ◌<◌, length, take};
ghost use Rattle.file_layout.specs.Reliance.{most_bytes};
ghost use Rattle.matchday_text.specs.Text.{file_text};

use matchday_text::matchday_text;
use std::io::Read;

// The text of the first bytes of a buffer. It has room for more than a file may have, so that a longer one is seen to be too long.
fn text_of(buffer: &[u8], count: usize, text: &mut [u8]) -> usize
    requires { (most_bytes < length buffer.now) × (count ≤ length buffer.now) }
    ensures answer { result ≡ length (file_text (take count buffer.now)) }
{
    matchday_text(&buffer[..count], text)
}

// Reads until the buffer is full, the input ends or a read fails, and gives how many bytes were read. No `for` says it: how far a read
// goes is for the input to say.
fn read_full(rt: &impl Input, buffer: &mut [u8]) -> usize
    ensures { result ≤ length buffer.new }
{
    let mut reader = rt.reader();
    let mut done = 0;
    while done < buffer.len() {
        match reader.read(&mut buffer[done..]) {
            Ok(0) | Err(_) => break,
            Ok(count) => done += count,
        }
    }
    done
}

// A write that fails is passed over.
fn main(rt: HostRuntime) {
    let mut bytes = [0u8; 24592];
    // Room for the text of every file.
    let mut text = [0u8; 98330];
    let count = read_full(&rt, &mut bytes);
    let length = text_of(&bytes, count, &mut text);
    let _ = rt.write_all(&text[..length]);
}
