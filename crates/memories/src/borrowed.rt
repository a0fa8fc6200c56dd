//! The caller's own bytes after a memory borrowed them.

ghost use Rattle.std.specs.Prelude.{◌≡◌};
ghost use Rattle.memories.specs.Borrowed.{ReplacesWord, word_in};

use super::placement::check_placement;
use super::ram::Ram;
use bus::memory::Bus;
use bus::request::{Answer, Request, Width};

/// Writes a word into bytes that stand at `base`, and gives the one that was there. None where they may not stand
/// there, or where the word lies outside of them; they are then as they were.
pub fn replace_word(base: u32, bytes: &mut [u8], address: u32, word: u32) -> Option<u32>
    ensures old { result ≡ word_in base bytes.old address }
    ensures bytes { ReplacesWord base bytes.old address word bytes.new }
{
    check_placement(base, bytes.len()).ok()?;
    let mut ram = Ram::new(base, bytes);
    let Answer::Done(old) = ram.request(Request::read(address)) else {
        return None;
    };
    ram.request(Request::write(Width::Word, address, word));
    Some(old)
}
