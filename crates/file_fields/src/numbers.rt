// Numbers of two bytes, low byte first.
ghost use Rattle.std.specs.Prelude.{◌≡◌, ◌+◌, ◌<◌, length, get_or};
ghost use Rattle.lists.specs.Parts.{copied_over};
ghost use Rattle.file_layout.specs.Fields.{number16, numbers};

// The number whose low byte stands at a place.
pub(crate) fn number_at(bytes: &[u8], at: usize) -> u16
    requires { at + 1 < length bytes.now }
    ensures answer { let bytes = bytes.entry.now in result ≡ number16 (get_or bytes at 0) (get_or bytes (at + 1) 0) }
{
    u16::from_le_bytes([bytes[at], bytes[at + 1]])
}

// The numbers of the bytes to the front of the lent list, as many as it has room for.
pub fn copy_numbers(bytes: &[u8], list: &mut [u16])
    ensures list { let bytes = bytes.entry.now in let list₀ = list.old in list.new ≡ copied_over (numbers bytes) list₀ }
{
    let count = (bytes.len() / 2).min(list.len());
    for i in 0..count {
        list[i] = number_at(bytes, 2 * i);
    }
}
