// Lent bytes, of which there may be any number.
#![tactic(auto)]

ghost use Rattle.std.specs.Prelude.{◌≡◌, get_or};

// The byte at a place; behind the last one 0. By its number, not by `get`: an option of a reference that is handed on lies elsewhere on a
// processor of 32 bits, so that archives made of the module for x86-64 would read a wrong place.
pub fn byte_at(bytes: &[u8], at: usize) -> u8
    ensures { result ≡ get_or bytes.now at 0 }
{
    if at < bytes.len() { bytes[at] } else { 0 }
}
