//! SipHash for names, eight bytes at a time.

ghost use Rattle.std.specs.Prelude.{◌≡◌};
ghost use Rattle.lg_names.specs.Hashing as hashing;

use std::hash::{DefaultHasher, Hasher};

// What is held where no byte is.
const NOTHING: u64 = 1 << 63;

/// SipHash that takes bytes which come one by one as words of eight.
///
/// A name's length is handed over first and then each of its bytes in a call of its own, for which SipHash has much to do. Here
/// eight of them are held until they are a word. What is held at the end is a word too, which tells how many bytes it has: so
/// different names are different words.
#[derive(Clone, Copy)]
pub struct NameHasher {
    words: DefaultHasher,
    // The bytes that came one by one since the last word, the last of them highest; below them stands a 1, and then zeros.
    held: u64,
}

impl NameHasher {
    /// One that goes on where this one is. No memory.
    pub(crate) fn of(words: DefaultHasher) -> NameHasher
        ensures { result ≡ hashing.reading words }
    {
        NameHasher {
            words,
            held: NOTHING,
        }
    }

    // One byte more. Where seven are held, the 1 stands in the lowest byte, and this one makes them a word.
    fn take(&mut self, byte: u8)
        ensures { self.new ≡ hashing.after_byte self.old byte }
    {
        let held = self.held >> 8 | (byte as u64) << 56;
        if self.held % 256 == 0 {
            self.held = held;
        } else {
            self.words.write_u64(held);
            self.held = NOTHING;
        }
    }

    // What is held goes as a word, if anything is.
    #[tactic(auto, unfolding(crate::specs::Hashing::settled))]
    fn settle(&mut self)
        ensures { self.new ≡ hashing.settled self.old }
    {
        if self.held == NOTHING {
            return;
        }
        self.words.write_u64(self.held);
        self.held = NOTHING;
    }
}

impl Hasher for NameHasher {
    ghost write = { hashing.write };

    ghost finish = { hashing.finish };

    #[tactic(auto, unfolding(crate::specs::Hashing::write, crate::specs::Hashing::after_piece))]
    fn write(&mut self, bytes: &[u8]) {
        if bytes.len() == 1 {
            self.take(bytes[0]);
            return;
        }
        self.settle();
        self.words.write(bytes);
    }

    fn finish(&self) -> u64 {
        let mut words = self.words;
        words.write_u64(self.held);
        words.finish()
    }
}
