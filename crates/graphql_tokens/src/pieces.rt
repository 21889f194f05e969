//! Pieces of a text, one behind the other.
ghost use Rattle.std.specs.Prelude.{◌≡◌, ◌≤◌, ◌+◌, ℕ, List, drop, length};
ghost use Rattle.graphql_tokens.specs.Pieces.{pieces};

/// A sort of pieces that texts are made of.
pub(crate) trait Piece {
    /// How many bytes of a piece stand at the front of a text, and none where there is no piece.
    ghost size: { List ℕ → ℕ };

    /// So many bytes at the front are pieces of one byte each. More may be.
    fn single(text: &[u8]) -> usize
        ensures same { pieces size 0 text.now ≡ result + pieces size 0 (drop result text.now) }
        ensures within { result ≤ length text.now };

    /// How many bytes of a piece stand at the front.
    fn size(text: &[u8]) -> usize
        ensures same { result ≡ size text.now }
        ensures within { result ≤ length text.now };
}

/// How many bytes some pieces take at the front, and none where there is no piece.
fn some_pieces<P: Piece>(text: &[u8]) -> usize
    ensures same { pieces P.size 0 text.now ≡ result + pieces P.size 0 (drop result text.now) }
    ensures none { result ≡ 0 → pieces P.size 0 text.now ≡ 0 }
    ensures within { result ≤ length text.now }
{
    match P::single(text) {
        0 => P::size(text),
        single => single,
    }
}

/// How many bytes pieces of a sort take at the front, as many as there are.
pub(crate) fn pieces<P: Piece>(text: &[u8]) -> usize
    ensures same { result ≡ pieces P.size 0 text.now }
    ensures within { result ≤ length text.now }
{
    let mut at = 0;
    'pieces: while at < text.len() {
        let size = some_pieces::<P>(&text[at..]);
        if size == 0 {
            return at;
        }
        at += size;
    }
    at
}
