// The editing calls and the start of a document.
use appending::comment::append_comment;
use appending::element::append_element;
use appending::instruction::append_pi;
use appending::text::append_text;
use changing::attribute::set_attribute;
use changing::namespace::declare_namespace;
use changing::text::set_text;
use edits::born::NewNode;
use layout::record::slots_alone;
use layout::{Document, Limits};
use model::Refusal;
use moving::moves::{insert_at, reparent};
use ordering::compact::compact;
use ordering::order::document_order;
use parsing::parse::Edit;
use printing::show::Shown;
use records::NodeId;
use removing::attribute::remove_attribute;
use removing::detach::detach;
use removing::remove::remove;
use tree::start::start;

// What an editing call answers.
#[derive(Clone, Copy)]
pub enum Reply {
    Done,
    Made(NodeId),
    Found(bool),
    Order,
}

// The limits of a list that chooses none; the buffers fit them and no more.
const OWN_LIMITS: Limits = Limits {
    nodes: 2048,
    children: 8192,
    attributes: 8192,
    namespaces: 8192,
    texts: 4096,
    textbytes: 65536,
    names: 512,
    namebytes: 16384,
};

// A document in its buffers.
#[derive(Drop)]
pub struct Store<'a> {
    pub document: Document,
    pub mem: &'a mut [u64],
    pub scratch: &'a mut [u64],
}

impl<'a> Store<'a> {
    // With the document that a list starts with.
    pub fn new(mem: &'a mut [u64], scratch: &'a mut [u64]) -> Store<'a> {
        let document = start(OWN_LIMITS, mem).unwrap_or(slots_alone(OWN_LIMITS, 0, false));
        Store {
            document,
            mem,
            scratch,
        }
    }

    pub fn shown(&self) -> Shown<'_> {
        Shown {
            document: self.document,
            mem: self.mem,
        }
    }

    pub fn edit(&mut self, call: Edit<'_>) -> Result<Reply, Refusal> {
        let (document, reply) = edited(self.document, self.mem, self.scratch, call)?;
        self.document = document;
        Ok(reply)
    }
}

// The record after a call, and what the call answers.
type Edited = Result<(Document, Reply), Refusal>;

fn edited(d: Document, mem: &mut [u64], scratch: &mut [u64], call: Edit<'_>) -> Edited {
    Ok(match call {
        Edit::AppendElement(id, namespace, local) => {
            made(append_element(d, mem, scratch, id, namespace, local)?)
        }
        Edit::AppendText(id, text) => made(append_text(d, mem, scratch, id, text)?),
        Edit::AppendComment(id, text) => made(append_comment(d, mem, scratch, id, text)?),
        Edit::AppendPi(id, target, data) => made(append_pi(d, mem, scratch, id, target, data)?),
        Edit::SetText(id, text) => done(set_text(d, mem, scratch, id, text)?),
        Edit::SetAttribute(id, namespace, local, value) => {
            done(set_attribute(d, mem, scratch, id, namespace, local, value)?)
        }
        Edit::RemoveAttribute(id, namespace, local) => {
            found(remove_attribute(d, mem, scratch, id, namespace, local)?)
        }
        Edit::DeclareNamespace(id, prefix, uri) => {
            made(declare_namespace(d, mem, scratch, id, prefix, uri)?)
        }
        Edit::Remove(id) => done(remove(d, mem, scratch, id)?),
        Edit::Detach(id) => done(detach(d, mem, scratch, id)?),
        Edit::Reparent(id, parent) => done(reparent(d, mem, scratch, id, parent)?),
        Edit::InsertAt(parent, index, child) => {
            done(insert_at(d, mem, scratch, parent, index, child)?)
        }
        Edit::DocumentOrder => ordered(document_order(d, mem, scratch)?),
        Edit::Compact => done(compact(d, mem, scratch)?),
        Edit::Fresh => done(start(OWN_LIMITS, mem)?),
        Edit::Limits(limits) => limited(mem, scratch.len(), limits)?,
    })
}

// Scratch has to fit the limits too.
fn limited(mem: &mut [u64], scratch: usize, limits: Limits) -> Edited {
    if !layout::buffers_ok(slots_alone(limits, 0, false), mem.len(), scratch) {
        return Err(Refusal::BadBuffers);
    }
    Ok(done(start(limits, mem)?))
}

fn done(document: Document) -> (Document, Reply) {
    (document, Reply::Done)
}

fn ordered(document: Document) -> (Document, Reply) {
    (document, Reply::Order)
}

fn made(new: NewNode) -> (Document, Reply) {
    (new.document, Reply::Made(new.id))
}

fn found((document, was): (Document, bool)) -> (Document, Reply) {
    (document, Reply::Found(was))
}
