//! The comparison of two MACs.

ghost use Rattle.std.specs.Prelude.{◌≡◌, ◌↔◌, IsTrue};

/// Whether two MACs are equal. The loop reads all bytes, whatever they are, and the one comparison stands after it, so that the time
/// tells nothing of how many bytes of a guess are right. That is how the source is written: no contract speaks of time, and a compiler
/// may change it.
pub fn is_same(a: &[u8; 32], b: &[u8; 32]) -> bool
    ensures { IsTrue result ↔ (a.now ≡ b.now) }
{
    let mut differing = 0;
    for i in 0..32 {
        differing |= a[i] ^ b[i];
    }
    differing == 0
}
