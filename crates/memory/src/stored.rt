// What the layers of texts and of names are handed, and the bytes that they show, one a word, as parts of the memory, also in damaged memory.
ghost use Rattle.std.specs.Prelude.{◌≡◌};
ghost use Rattle.names.specs.Words.{part_number, name_there};
ghost use Rattle.model.specs.Kinds.{replaceable};
ghost use Rattle.model.specs.Doc.{or_else};
ghost use Rattle.memory.specs.Decode.{slot_of, kind_of, text_limits, text_counts, texts_part, name_limits, name_counts, names_part};
ghost use Rattle.memory.specs.Stored.{text_in, name_part};

use crate::view::View;
use layout::{Document, names_range, texts_range};
use names::{NameCounts, NameLimits, NamePart, NameTable};
use records::NodeData;
use texts::{TextCounts, TextLimits, TextPool};
use words::{NameId, TextSlot};

pub fn text_limits(d: Document) -> TextLimits
    ensures { result ≡ text_limits d }
{
    TextLimits {
        slots: d.limits.texts,
        bytes: d.limits.textbytes,
    }
}

pub fn text_counts(d: Document) -> TextCounts
    ensures { result ≡ text_counts d }
{
    TextCounts {
        slots: d.counts.texts,
        free: d.counts.freetexts,
        bytes: d.counts.textbytes,
    }
}

pub fn name_limits(d: Document) -> NameLimits
    ensures { result ≡ name_limits d }
{
    NameLimits {
        names: d.limits.names,
        bytes: d.limits.namebytes,
    }
}

pub fn name_counts(d: Document) -> NameCounts
    ensures { result ≡ name_counts d }
{
    NameCounts {
        names: d.counts.names,
        bytes: d.counts.namebytes,
    }
}

// The text of a node that `set_text`, or a second `set_attribute` or `declare_namespace`, replaces.
pub fn text_field(data: NodeData) -> Option<TextSlot>
    ensures { slot_of result ≡ or_else None (replaceable (kind_of «data»)) }
{
    match data {
        NodeData::Attr { value: text, .. }
        | NodeData::Text(text)
        | NodeData::Namespace { uri: text, .. } => text,
        _ => None,
    }
}

impl<'a> View<'a> {
    // The words of the pool.
    pub fn texts_words(&self) -> &'a [u64]
        ensures { result.now ≡ texts_part self.now.document self.now.words.now }
    {
        &self.words[texts_range(self.document.limits)]
    }

    // The pool, in these words.
    pub fn text_pool(&self) -> TextPool<'a>
        ensures words_shown { result.words.now ≡ texts_part self.now.document self.now.words.now }
        ensures limits_told { result.limits ≡ text_limits self.now.document }
        ensures counts_told { result.counts ≡ text_counts self.now.document }
    {
        TextPool {
            words: self.texts_words(),
            limits: text_limits(self.document),
            counts: text_counts(self.document),
        }
    }

    // The words of the table.
    pub fn names_words(&self) -> &'a [u64]
        ensures { result.now ≡ names_part self.now.document self.now.words.now }
    {
        &self.words[names_range(self.document.limits)]
    }

    // The table.
    pub fn name_table(&self) -> NameTable<'a>
        ensures limits { result.limits ≡ name_limits self.now.document }
        ensures counts { result.counts ≡ name_counts self.now.document }
        ensures words { result.words.now ≡ names_part self.now.document self.now.words.now }
    {
        NameTable {
            words: self.names_words(),
            limits: name_limits(self.document),
            counts: name_counts(self.document),
        }
    }

    fn slot_bytes(&self, slot: TextSlot) -> &'a [u64]
        ensures { result.now ≡ text_in self.now.document self.now.words.now (Some slot.0) }
    {
        self.text_pool().text(slot)
    }

    // The bytes of a text, one a word.
    pub fn text_bytes(&self, text: Option<TextSlot>) -> &'a [u64]
        ensures { result.now ≡ text_in self.now.document self.now.words.now (slot_of text) }
    {
        match text {
            None => &self.words[..0],
            Some(slot) => self.slot_bytes(slot),
        }
    }

    // The bytes of a part of a name, one a word.
    pub fn name_bytes(&self, number: NameId, part: NamePart) -> &'a [u64]
        ensures { result.now ≡ name_part self.now.document self.now.words.now number.0 (part_number part) }
    {
        self.name_table().read_part(number, part)
    }

    // Whether there is a name at the number.
    pub fn has_name(&self, number: NameId) -> bool
        ensures { result ≡ name_there (name_limits self.now.document) (name_counts self.now.document) number.0 (names_part self.now.document self.now.words.now) }
    {
        self.name_table().has_name(number)
    }
}
