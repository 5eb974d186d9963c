// The walker holds the lent arena and its own position.
ghost use Rattle.std.specs.Prelude.{◌≡◌};
ghost use Rattle.descendants.specs.Contract.{next_of};

use crate::walk::next;
use layout::Document;
use model::Refusal;
use steps::position::Position;

// `ids` is the lent buffer whole: the ids of a list and the words that say where the next list lies stand in it side by side.
#[derive(Clone, Copy)]
pub struct Walker<'a> {
    pub document: Document,
    pub ids: &'a [u64],
    pub at: Position,
}

impl<'a> Walker<'a> {
    pub fn hold(document: Document, ids: &'a [u64], at: Position) -> Self
        ensures { result ≡ record { document = document; ids = ids.entry; at = at } }
    {
        Walker { document, ids, at }
    }

    // The next node; `moved` goes on from it.
    pub fn next_of(self) -> Result<Option<Position>, Refusal>
        ensures { result ≡ next_of self.entry.document self.entry.ids.now self.entry.at }
    {
        next(self.document, self.ids, self.at)
    }

    // The walker at another position.
    pub fn moved(self, at: Position) -> Self
        ensures { result ≡ record self.entry { at = at } }
    {
        Walker { at, ..self }
    }
}

// The next node by a walker that is made for it, for callers that keep the three by themselves.
pub fn next_held(d: Document, ids: &[u64], at: Position) -> Result<Option<Position>, Refusal>
    ensures { result ≡ next_of d ids.now at }
{
    Walker::hold(d, ids, at).next_of()
}
