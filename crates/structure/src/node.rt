// What the rules ask of a node's kind, by its number.
ghost use Rattle.std.specs.Prelude.{◌≡◌};
ghost use Rattle.structure.specs.Tests.{child_number, owns_number};

use records::kind::{ATTR, ELEMENT, NAMESPACE};

// All but attributes and namespaces stand among their parent's children.
pub fn is_child(kind: u64) -> bool
    ensures { result ≡ child_number kind }
{
    kind != ATTR && kind != NAMESPACE
}

// Whether a node may be the parent of another: the Root and elements hold children, elements alone attributes and namespaces.
pub fn may_own(owner: u64, owned: u64) -> bool
    ensures { result ≡ owns_number owner owned }
{
    if is_child(owned) {
        owner <= ELEMENT
    } else {
        owner == ELEMENT
    }
}
