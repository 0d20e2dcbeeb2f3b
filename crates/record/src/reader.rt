//! Where in a log a reader stands.

ghost use Rattle.std.specs.Prelude.{◌≡◌, ◌≤◌, length};

/// Goes through a log from its first byte, a record at a time.
#[derive(Drop)]
pub struct Reader<'a> {
    pub(crate) log: &'a [u8],
    pub(crate) offset: usize,
    ghost within: { offset ≤ length log.now },
}

impl<'a> Reader<'a> {
    /// A reader that stands at the first byte of the log.
    pub fn new(log: &'a [u8]) -> Reader<'a>
        ensures log { result.log.now ≡ log.now }
        ensures offset { result.offset ≡ 0 }
    {
        Reader { log, offset: 0 }
    }

    /// The offset of the byte at which the next record begins.
    pub fn offset(&self) -> usize
        ensures { result ≡ self.now.offset }
    {
        self.offset
    }
}
