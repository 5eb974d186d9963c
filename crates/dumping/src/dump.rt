// The whole state, region by region.
use layout::{Arena, Document};
use memory::view::View;
use printing::show::Shown;
use printing::sink::{Handle, Joined, Numbers, Sink, Span};
use records::{Node, NodeData, NodeId, Range};
use std::fmt::{self, Write};
use words::{NameId, NodeSlot, TextSlot};

fn put_counts(d: Document, out: &mut Sink<'_>) -> fmt::Result {
    let c = d.counts;
    write!(out, "counts slots={} free={}", c.slots, c.free)?;
    write!(out, " children={} attributes={}", c.children, c.attributes)?;
    write!(out, " namespaces={} texts={}", c.namespaces, c.texts)?;
    write!(out, " freetexts={} textbytes={}", c.freetexts, c.textbytes)?;
    write!(out, " names={} namebytes={}", c.names, c.namebytes)?;
    writeln!(out, " current={}", u8::from(d.current))
}

// A text: its slot and its bytes.
fn put_text(
    shown: Shown<'_>,
    field: &str,
    text: Option<TextSlot>,
    out: &mut Sink<'_>,
) -> fmt::Result {
    match text {
        None => write!(out, "{field}-/x"),
        Some(slot) => write!(out, "{field}{}/{}", slot.0, shown.text(text)),
    }
}

fn put_data(shown: Shown<'_>, data: NodeData, out: &mut Sink<'_>) -> fmt::Result {
    match data {
        NodeData::Root => write!(out, " root"),
        NodeData::Element { name, .. } => write!(out, " element name={}", name.0),
        NodeData::Attr { name, value } => {
            write!(out, " attr name={}", name.0)?;
            put_text(shown, " value=", value, out)
        }
        NodeData::Text(text) => put_text(shown, " text text=", text, out),
        NodeData::Comment(text) => put_text(shown, " comment text=", text, out),
        NodeData::Namespace { prefix, uri } => {
            put_text(shown, " namespace prefix=", prefix, out)?;
            put_text(shown, " uri=", uri, out)
        }
        NodeData::ProcessingInstruction { target, data } => {
            put_text(shown, " pi target=", target, out)?;
            put_text(shown, " data=", data, out)
        }
    }
}

fn put_parent(parent: Option<NodeId>, out: &mut Sink<'_>) -> fmt::Result {
    match parent {
        None => write!(out, " parent=-"),
        Some(id) => write!(out, " parent={}", Handle(id)),
    }
}

// A block: its range and the handles in it.
fn put_block(shown: Shown<'_>, arena: Arena, block: Range, out: &mut Sink<'_>) -> fmt::Result {
    let handles = reading::list::entries(shown.document, shown.mem, arena, block);
    let name = arena_name(arena);
    write!(out, " {name}={}[{}]", Span(block), Joined(handles))
}

fn arena_name(arena: Arena) -> &'static str {
    match arena {
        Arena::Children => "children",
        Arena::Attributes => "attributes",
        Arena::Namespaces => "namespaces",
    }
}

fn put_node(shown: Shown<'_>, node: Node, out: &mut Sink<'_>) -> fmt::Result {
    put_data(shown, node.data, out)?;
    put_parent(node.parent, out)?;
    put_block(shown, Arena::Children, node.children, out)?;
    if let NodeData::Element {
        attributes,
        namespaces,
        ..
    } = node.data
    {
        put_block(shown, Arena::Attributes, attributes, out)?;
        put_block(shown, Arena::Namespaces, namespaces, out)?;
    }
    writeln!(out)
}

// The node in a slot, with its generation even.
fn node_at(d: Document, mem: &[u64], slot: NodeSlot, generation: u64) -> Option<Node> {
    let view = View::of(d, mem).ok()?;
    if generation % 2 == 0 && (slot.0 as usize) < d.limits.nodes {
        return view.load(slot);
    }
    None
}

// No more than have a number of 32 bits, here and of texts and names.
fn put_slots(shown: Shown<'_>, out: &mut Sink<'_>) -> fmt::Result {
    let d = shown.document;
    let generations = part(shown.mem, 0, memory::read::made(d));
    for (slot, generation) in (0..=u32::MAX).zip(generations) {
        write!(out, "slot {slot} {generation}")?;
        match node_at(d, shown.mem, NodeSlot(slot), *generation) {
            Some(node) => put_node(shown, node, out)?,
            None => writeln!(out, " free")?,
        }
    }
    Ok(())
}

// The part of a slice with this start and length; the empty part where it lies outside.
fn part(words: &[u64], start: usize, len: usize) -> &[u64] {
    let rest = words.get(start..).unwrap_or(&[]);
    rest.get(..len).unwrap_or(&[])
}

// The words of the texts and names.
fn text_words(d: Document, mem: &[u64]) -> &[u64] {
    if layout::limits_ok(d.limits) {
        return mem.get(layout::texts_at(d.limits)..).unwrap_or(&[]);
    }
    &[]
}

// The words of an arena and of what lies behind it.
fn arena_words(d: Document, mem: &[u64], arena: Arena) -> &[u64] {
    if layout::limits_ok(d.limits) {
        return mem.get(layout::arena_at(d.limits, arena)..).unwrap_or(&[]);
    }
    &[]
}

fn put_free(d: Document, mem: &[u64], out: &mut Sink<'_>) -> fmt::Result {
    let slots = part(mem, d.limits.nodes, d.counts.free);
    let texts = part(text_words(d, mem), d.limits.texts, d.counts.freetexts);
    writeln!(out, "free{}", Numbers(slots))?;
    writeln!(out, "freetexts{}", Numbers(texts))
}

fn put_texts(shown: Shown<'_>, out: &mut Sink<'_>) -> fmt::Result {
    for slot in (0..=u32::MAX).take(shown.document.counts.texts) {
        let text = shown.text(Some(TextSlot(slot)));
        writeln!(out, "text {slot} {text}")?;
    }
    Ok(())
}

fn put_names(shown: Shown<'_>, out: &mut Sink<'_>) -> fmt::Result {
    for id in (0..=u32::MAX).take(shown.document.counts.names) {
        writeln!(out, "name {id} {}", shown.name(NameId(id)))?;
    }
    Ok(())
}

// The capacity records of an arena that are not 0: start and capacity.
fn put_caps(d: Document, mem: &[u64], arena: Arena, out: &mut Sink<'_>) -> fmt::Result {
    write!(out, "caps {}", arena_name(arena))?;
    let limit = layout::arena_limit(d.limits, arena);
    let used = memory::read::arena_used(d, arena);
    let capacities = part(arena_words(d, mem, arena), limit, used);
    for (start, capacity) in capacities.iter().enumerate() {
        if *capacity != 0 {
            write!(out, " {start}:{capacity}")?;
        }
    }
    writeln!(out)
}

// The order words, while the order is current.
fn put_order(shown: Shown<'_>, out: &mut Sink<'_>) -> fmt::Result {
    let words = if shown.document.current {
        reading::order::order_words(shown.document, shown.mem)
    } else {
        &[]
    };
    writeln!(out, "order{}", Numbers(words))
}

fn put_state(shown: Shown<'_>, out: &mut Sink<'_>) -> fmt::Result {
    let Shown { document, mem } = shown;
    writeln!(out, "dump")?;
    put_counts(document, out)?;
    put_slots(shown, out)?;
    put_free(document, mem, out)?;
    put_texts(shown, out)?;
    put_names(shown, out)?;
    for arena in [Arena::Children, Arena::Attributes, Arena::Namespaces] {
        put_caps(document, mem, arena, out)?;
    }
    put_order(shown, out)?;
    writeln!(out, "end")
}

// A sink takes every text (`Sink::write_str` refuses none), and no value here fails by itself.
pub fn dump(shown: Shown<'_>, out: &mut Sink<'_>) {
    let _ = put_state(shown, out);
}
