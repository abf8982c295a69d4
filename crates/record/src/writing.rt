// Bytes written over those of a record.
ghost use Rattle.std.specs.Prelude.{◌≡◌, min, length};
ghost use Rattle.std.proofs.Math.Seq.{paste};
ghost use Rattle.record.specs.Writing.{over};

// The bytes of one slice over those of another, from the front of both on, as far as both go. By their numbers: `copy_from_slice` asks for
// addresses, which have fewer bits on a processor of 32 bits, and archives for one are made of the module for x86-64.
pub fn copy_bytes(to: &mut [u8], from: &[u8])
    ensures part { to.new ≡ paste to.old 0 from.now (min (length to.old) (length from.now)) }
    ensures whole { length to.old ≡ length from.now → to.new ≡ from.now }
{
    let n = to.len().min(from.len());
    for i in 0..n {
        to[i] = from[i];
    }
}

// Writes bytes from index k on, as far as there is room.
#[tactic(auto, using(crate::proofs::Overwriting::over_part))]
pub fn put(out: &mut [u8], k: usize, bytes: &[u8])
    ensures { out.new ≡ over bytes.now k out.old }
{
    let from = k.min(out.len());
    let n = bytes.len().min(out.len() - from);
    copy_bytes(&mut out[from..from + n], &bytes[..n]);
}
