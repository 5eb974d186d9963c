// Bytes behind others in a lent buffer.
ghost use Rattle.std.specs.Prelude.{◌≡◌, ◌+◌, ◌≤◌, length};
ghost use Rattle.words.specs.Parts.{put};

// Stays: the clause says where in the whole buffer the bytes land.
// Writes the bytes from index at on, and answers where they end. Rules out a byte that is written elsewhere.
#[tactic(auto, using(words::proofs::Parts::returned))]
pub fn put_bytes(out: &mut [u8], at: usize, text: &[u8]) -> usize
    requires { at + length text.now ≤ length out.old }
    ensures value { result ≡ at + length text.now }
    ensures out_after { out.new ≡ put at text.now out.old }
{
    let end = at + text.len();
    out[at..end].copy_from_slice(text);
    end
}
