// A line is parsed as a whole, then it edits the document, and then its answer is written.
use crate::edit::{Reply, Store};
use dumping::dump::dump;
use layout::{Arena, Document};
use parsing::parse::{LONGEST, Line, Read, parse};
use printing::show::{Shown, listed, refused};
use printing::sink::{Handle, Sink};
use records::NodeId;
use std::fmt::{self, Write};

// What is kept from line to line: the document, room for the texts of a line, what waits to be written, and how many lines there were.
#[derive(Drop)]
pub struct Session<'a> {
    pub store: Store<'a>,
    pub texts: &'a mut [u8],
    pub out: Sink<'a>,
    pub lines: u64,
}

impl Session<'_> {
    // Answers a line; none is one that was not kept, since it is too long.
    pub fn answer(&mut self, line: Option<&[u8]>) {
        self.lines = self.lines.wrapping_add(1);
        if line.is_some_and(is_silent) {
            return;
        }
        // A sink takes every text (`Sink::write_str` refuses none), and no value here fails by itself.
        let _ = put_answer(&mut self.store, self.texts, line, self.lines, &mut self.out);
    }
}

fn put_answer(
    store: &mut Store<'_>,
    texts: &mut [u8],
    line: Option<&[u8]>,
    number: u64,
    out: &mut Sink<'_>,
) -> fmt::Result {
    match line.and_then(|line| parse(line, texts)) {
        Some(Line::Edit(call)) => match store.edit(call) {
            Ok(reply) => put_reply(store.shown(), reply, out)?,
            Err(why) => refused(out, why),
        },
        Some(Line::Read(call)) => {
            let document = store.document;
            let mem = &mut *store.mem;
            put_read(document, mem, store.scratch, call, out)
        }
        None => writeln!(out, "? {number}")?,
    }
    Ok(())
}

fn put_reply(shown: Shown<'_>, reply: Reply, out: &mut Sink<'_>) -> fmt::Result {
    match reply {
        Reply::Done => writeln!(out, "ok")?,
        Reply::Made(id) => writeln!(out, "h {}", Handle(id))?,
        Reply::Found(was) => writeln!(out, "b {}", u8::from(was))?,
        Reply::Order => shown.put_order(out),
    }
    Ok(())
}

// The handles of the nodes are written to scratch, whose words no call relies on.
fn put_read(document: Document, mem: &[u64], scratch: &mut [u64], call: Read, out: &mut Sink<'_>) {
    let shown = Shown { document, mem };
    match call {
        Read::Root => shown.put_root(out),
        Read::RootElement => shown.put_root_element(out),
        Read::Nodes => shown.put_nodes(scratch, out),
        Read::Dump => dump(shown, out),
        Read::Kind(id) => shown.put_kind(id, out),
        Read::Parent(id) => shown.put_parent(id, out),
        Read::Children(id) => shown.put_list(Arena::Children, id, out),
        Read::Descendants(id) => put_below(shown, id, scratch, out),
        Read::IsElement(id) => shown.put_is_element(id, out),
        Read::AttributeNodes(id) => shown.put_list(Arena::Attributes, id, out),
        Read::NamespaceNodes(id) => shown.put_list(Arena::Namespaces, id, out),
        Read::OrderKey(id) => shown.put_order_key(id, out),
        Read::Ranges(id) => shown.put_ranges(id, out),
        Read::Name(number) => shown.put_name(number, out),
    }
}

// The nodes below one, as `Shown::put_nodes` writes all.
fn put_below(shown: Shown<'_>, id: NodeId, scratch: &mut [u64], out: &mut Sink<'_>) {
    let Shown { document, mem } = shown;
    let count = descendants::list::list_below(document, mem, id, scratch);
    listed(out, scratch, count)
}

// Whether a line answers nothing: an empty one, and a comment.
fn is_silent(line: &[u8]) -> bool {
    match line {
        [] => true,
        [first, ..] => *first == b'#' && line.len() <= LONGEST,
    }
}
