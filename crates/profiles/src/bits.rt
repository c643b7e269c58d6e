// The fields of a file, taken from it by their bit position.
ghost use Rattle.std.specs.Prelude.{◌≡◌, ◌+◌};
ghost use Rattle.meaning.specs.Profile.{field};
ghost use Rattle.profiles.specs.Cited.{InFile};

// The number in the field of `width` bits that begins at bit `at`: the bytes that hold it, taken whole, without the bits behind
// it and those before it.
pub(crate) fn take_field(file: &[u8], at: usize, width: usize) -> u64
    requires { InFile file.now at width }
    ensures { result ≡ field file.now at width }
{
    let first = at / 8;
    let held = at % 8 + width;
    let count = held.div_ceil(8);
    let mut taken: u64 = 0;
    for &byte in &file[first..first + count] {
        taken = taken * 256 + u64::from(byte);
    }
    let behind = 8 * count - held;
    (taken >> behind) % (1u64 << width)
}

// A file, and the bit at which its next field begins.
#[derive(Clone, Copy)]
pub(crate) struct BitReader<'a> {
    file: &'a [u8],
    at: usize,
}

impl<'a> BitReader<'a> {
    // A reader of a file, at a bit.
    pub(crate) fn at(file: &'a [u8], at: usize) -> BitReader<'a>
        ensures file { result.file.now ≡ file.entry.now }
        ensures at { result.at ≡ at }
    {
        BitReader { file, at }
    }

    // The number in the next `width` bits, which are passed.
    pub(crate) fn take(&mut self, width: usize) -> u64
        requires { InFile self.old.file.now self.old.at width }
        ensures value { result ≡ field self.old.file.now self.old.at width }
        ensures same_file { self.new.file.now ≡ self.old.file.now }
        ensures passed { self.new.at ≡ self.old.at + width }
    {
        let number = take_field(self.file, self.at, width);
        self.at += width;
        number
    }
}
