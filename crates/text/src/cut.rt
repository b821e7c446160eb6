// Where a text is cut: at the line feeds into lines, at the commas into fields.
ghost use Rattle.std.specs.Prelude.{◌≡◌, ◌∷◌, ◌<◌, ◌≤◌, length, IfSome};
ghost use Rattle.text.specs.Pieces.{before, pieces, pieces_left};

// How many bytes stand before the first `byte`: all of them where there is none.
pub fn bytes_before(text: &[u8], byte: u8) -> usize
    ensures value { result ≡ before byte text.now }
    ensures within { result ≤ length text.now }
{
    text.iter().position(|b| *b == byte).unwrap_or(text.len())
}

// How many pieces `byte` cuts the text into.
#[tactic(auto, using(crate::proofs::Cuts::pieces_count))]
pub fn count_pieces(text: &[u8], byte: u8) -> usize
    ensures { result ≡ length (pieces byte text.now) }
{
    text.iter().filter(|b| **b == byte).count() + 1
}

// What stands before the first `byte`, and what follows it: nothing follows where there is none.
#[tactic(auto, using(crate::proofs::Cuts::cut_by_get))]
pub fn first_piece(text: &[u8], byte: u8) -> (&[u8], Option<&[u8]>)
    ensures value { pieces byte text.now ≡ result.0.now ∷ pieces_left byte result.1 }
    ensures shorter { IfSome result.1 (λ rest. length rest.now < length text.now) }
{
    let (piece, rest) = text.split_at(bytes_before(text, byte));
    (piece, rest.get(1..))
}
