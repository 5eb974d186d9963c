// A position of a walk, by value.
ghost use Rattle.std.specs.Prelude.{◌≡◌};
ghost use Rattle.steps.specs.Next.{hint_for, with_hint, start};

// Where the node listed last in a list of fewer than 16, 256 and 4,096 entries, and in a longer one, stood in it. A hint is tried before it is believed.
#[derive(Clone, Copy)]
pub struct Hints {
    pub short: usize,
    pub middling: usize,
    pub long: usize,
    pub longest: usize,
}

// The node where the walk began, the node listed last, the hints, and how many nodes may be listed yet. A handle is a word.
#[derive(Clone, Copy)]
pub struct Position {
    pub zone: u64,
    pub node: u64,
    pub hints: Hints,
    pub left: usize,
}

// At the zone itself; so many nodes may be listed.
pub fn start(nodes: usize, zone: u64) -> Position
    ensures { result ≡ start nodes zone }
{
    let hints = Hints {
        short: 0,
        middling: 0,
        long: 0,
        longest: 0,
    };
    Position {
        zone,
        node: zone,
        hints,
        left: nodes,
    }
}

pub fn hint_for(p: Hints, len: usize) -> usize
    ensures { result ≡ hint_for p len }
{
    if len < 16 {
        p.short
    } else if len < 256 {
        p.middling
    } else if len < 4096 {
        p.long
    } else {
        p.longest
    }
}

pub fn with_hint(p: Hints, len: usize, k: usize) -> Hints
    ensures { result ≡ with_hint p len k }
{
    if len < 16 {
        Hints { short: k, ..p }
    } else if len < 256 {
        Hints { middling: k, ..p }
    } else if len < 4096 {
        Hints { long: k, ..p }
    } else {
        Hints { longest: k, ..p }
    }
}
