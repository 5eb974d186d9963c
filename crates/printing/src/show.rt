// The answers of calls, each as a line, and the reading calls with theirs.
use crate::sink::{Handle, Handles, Hex, Numbers, Sink, Span};
use layout::{Arena, Document};
use model::Refusal;
use names::NamePart;
use reading::{list, name, node, order, text};
use records::{NodeData, NodeId, Range};
use std::fmt::{self, Write};
use words::{NameId, TextSlot};

pub fn refused(out: &mut Sink<'_>, why: Refusal) {
    answered::<u8>(out, "", Err(why))
}

// What a call answers, behind its mark. A sink takes every text (`Sink::write_str` refuses none), and no value here fails by itself.
pub fn answered<T: fmt::Display + Drop>(
    out: &mut Sink<'_>,
    mark: &str,
    answer: Result<Option<T>, Refusal>,
) {
    let _ = match answer {
        Ok(Some(value)) => writeln!(out, "{mark}{value}"),
        Ok(None) => writeln!(out, "none"),
        Err(why) => writeln!(out, "! {}", u8::from(why)),
    };
}

// The handles that a call wrote to the front of a list, as many as it answers.
pub fn listed(out: &mut Sink<'_>, handles: &[u64], count: Result<usize, Refusal>) {
    answered(
        out,
        "l",
        count.map(|n| Some(Handles(handles.get(..n).unwrap_or(&[])))),
    )
}

// A document and its words.
#[derive(Clone, Copy)]
pub struct Shown<'a> {
    pub document: Document,
    pub mem: &'a [u64],
}

impl<'a> Shown<'a> {
    pub fn text(self, text: Option<TextSlot>) -> Hex<'a> {
        Hex(text::text_bytes(self.document, self.mem, text))
    }

    pub fn name(self, id: NameId) -> Name<'a> {
        Name {
            namespace: name::name_bytes(self.document, self.mem, id, NamePart::Namespace),
            local: name::name_bytes(self.document, self.mem, id, NamePart::Local),
        }
    }

    pub fn put_root(self, out: &mut Sink<'_>) {
        let root = order::root(self.document, self.mem);
        answered(out, "h ", root.map(|id| Some(Handle(id))))
    }

    pub fn put_root_element(self, out: &mut Sink<'_>) {
        let found = node::root_element(self.document, self.mem);
        answered(out, "h ", found.map(|found| found.map(Handle)))
    }

    pub fn put_parent(self, id: NodeId, out: &mut Sink<'_>) {
        let found = node::parent(self.document, self.mem, id);
        answered(out, "h ", found.map(|found| found.map(Handle)))
    }

    pub fn put_is_element(self, id: NodeId, out: &mut Sink<'_>) {
        let found = node::is_element(self.document, self.mem, id);
        answered(out, "b ", found.map(|is| Some(u8::from(is))))
    }

    // The handles are written to scratch, whose words no call relies on.
    pub fn put_nodes(self, scratch: &mut [u64], out: &mut Sink<'_>) {
        let count = reading::nodes::nodes(self.document, self.mem, scratch);
        listed(out, scratch, count)
    }

    pub fn put_list(self, arena: Arena, id: NodeId, out: &mut Sink<'_>) {
        let found = list::list(self.document, self.mem, id, arena);
        let handles = |block| Some(Handles(list::entries(self.document, self.mem, arena, block)));
        answered(out, "l", found.map(handles))
    }

    pub fn put_order_key(self, id: NodeId, out: &mut Sink<'_>) {
        let key = order::order_key(self.document, self.mem, id);
        answered(out, "key ", key)
    }

    pub fn put_order(self, out: &mut Sink<'_>) {
        let words = order::order_words(self.document, self.mem);
        answered(out, "o", Ok(Some(Numbers(words))))
    }

    pub fn put_name(self, number: u64, out: &mut Sink<'_>) {
        let Ok(number) = u32::try_from(number) else {
            return answered::<Name<'_>>(out, "n ", Ok(None));
        };
        let found = name::name(self.document, self.mem, NameId(number));
        answered(out, "n ", found.map(|found| found.map(|id| self.name(id))))
    }

    pub fn put_kind(self, id: NodeId, out: &mut Sink<'_>) {
        let found = text::kind(self.document, self.mem, id);
        let kind = |data| Kind { shown: self, data };
        answered(out, "k ", found.map(|found| found.map(kind)))
    }

    pub fn put_ranges(self, id: NodeId, out: &mut Sink<'_>) {
        let found = text::kind(self.document, self.mem, id);
        let children = list::children(self.document, self.mem, id).ok();
        let ranges = |data| Ranges { children, data };
        answered(out, "r ", found.map(|found| found.map(ranges)))
    }
}

// A name's two parts.
#[derive(Clone, Copy)]
pub struct Name<'a> {
    namespace: &'a [u64],
    local: &'a [u64],
}

impl fmt::Display for Name<'_> {
    fn fmt<W: fmt::Write>(&self, f: &mut fmt::Formatter<W>) -> fmt::Result {
        write!(f, "{} {}", Hex(self.namespace), Hex(self.local))
    }
}

// What a node of a document is.
#[derive(Clone, Copy)]
struct Kind<'a> {
    shown: Shown<'a>,
    data: NodeData,
}

impl fmt::Display for Kind<'_> {
    fn fmt<W: fmt::Write>(&self, f: &mut fmt::Formatter<W>) -> fmt::Result {
        let text = |text| self.shown.text(text);
        match self.data {
            NodeData::Root => write!(f, "root"),
            NodeData::Element {
                name,
                attributes,
                namespaces,
            } => write!(
                f,
                "element {} {} {}",
                name.0,
                Span(attributes),
                Span(namespaces)
            ),
            NodeData::Attr { name, value } => write!(f, "attr {} {}", name.0, text(value)),
            NodeData::Text(t) => write!(f, "text {}", text(t)),
            NodeData::Comment(t) => write!(f, "comment {}", text(t)),
            NodeData::Namespace { prefix, uri } => {
                write!(f, "namespace {} {}", text(prefix), text(uri))
            }
            NodeData::ProcessingInstruction { target, data } => {
                write!(f, "pi {} {}", text(target), text(data))
            }
        }
    }
}

// The children's range, and the other two, which are an element's.
#[derive(Clone, Copy)]
struct Ranges {
    children: Option<Range>,
    data: NodeData,
}

impl fmt::Display for Ranges {
    fn fmt<W: fmt::Write>(&self, f: &mut fmt::Formatter<W>) -> fmt::Result {
        match self.children {
            Some(children) => write!(f, "{}", Span(children))?,
            None => write!(f, "-")?,
        }
        match self.data {
            NodeData::Element {
                attributes,
                namespaces,
                ..
            } => write!(f, " {} {}", Span(attributes), Span(namespaces)),
            _ => write!(f, " - -"),
        }
    }
}
