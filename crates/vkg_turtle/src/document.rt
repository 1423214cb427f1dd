ghost use Rattle.std.specs.Prelude.{◌≡◌, ◌++◌, codes, IfOk, OnOk, unwrap_or, []};
ghost use Rattle.vkg_terms.specs.declared.term.Term.TheVariants.{Iri};
ghost use Rattle.vkg_terms.specs.Resolve.{resolve};
ghost use Rattle.vkg_turtle.specs.Document.{begun, annotation_of_type, iri_of, iri_text, typed, term_of, noted_iri, noted, node_at, with_object, annotated, annotated_triple, with_annotation, outer_of, opened, restored, last_of, prefix_of, text_of_tag, with_subject, with_outer, act, based};
ghost use Rattle.vkg_turtle.specs.declared.role.Role.TheVariants.{PrefixName, PrefixIri, BaseIri, Subject, Verb, Object, Datatype, Language};

use crate::base::Base;
use crate::lexeme::{Lexeme, Word};
use crate::names::{iri_named, prefix_of};
use crate::prefixes::Prefixes;
use crate::role::Role;
use crate::triple::Triple;
use itoa::Buffer;
use std::alloc::Global;
use std::mem;
use vkg_base::{Items, Memory, Text, earlier};
use vkg_hash::Seed;
use vkg_terms::vocabulary::{RDF_TYPE, XSD_BOOLEAN, XSD_DECIMAL, XSD_DOUBLE, XSD_INTEGER};
use vkg_terms::{Annotation, Term, is_absolute};

/// A subject and a predicate, kept while the node of a bracket is the subject.
#[derive(Drop)]
pub struct Outer {
    pub subject: Term,
    pub predicate: Term,
}

/// What was read of a document (RDF 1.1 Turtle, 7.1), with the places of its first faults.
#[derive(Drop)]
pub struct Document {
    pub base: Base,
    pub prefixes: Prefixes,
    /// The prefix that is being declared.
    pub prefix: Text,
    pub subject: Term,
    pub predicate: Term,
    pub outer: Items<Outer>,
    pub triples: Items<Triple>,
    /// The first name whose prefix is not declared.
    pub unknown: Option<usize>,
    /// The first IRI that is not absolute.
    pub relative: Option<usize>,
}

fn no_iri(alloc: Global) -> Result<Term, Memory>
    ensures { IfOk result (λ t. t ≡ Iri []) }
{
    Ok(Term::Iri(Text::new(alloc, "")?))
}

/// An IRI, or no bytes.
pub fn or_empty(alloc: Global, iri: Option<Text>) -> Result<Text, Memory>
    ensures { IfOk result (λ t. t ≡ unwrap_or iri []) }
{
    match iri {
        Some(iri) => Ok(iri),
        None => Text::new(alloc, ""),
    }
}

/// A literal of a datatype.
pub fn typed(alloc: Global, text: Text, datatype: &str) -> Result<Term, Memory>
    ensures { IfOk result (λ t. t ≡ Term.Lit text (annotation_of_type datatype.now)) }
{
    let datatype = Text::new(alloc, datatype)?;
    Ok(Term::Lit(text, Annotation::typed(datatype)))
}

// The node of the bracket at a place.
fn node_at(alloc: Global, at: usize) -> Result<Term, Memory>
    ensures { IfOk result (λ t. t ≡ node_at at) }
{
    let mut buffer = Buffer::new();
    let mut label = String::from_str(alloc, ".")?;
    label.push_str(buffer.format(at))?;
    Ok(Term::Blank(Text::from_string(label)))
}

fn tag_of(alloc: Global, word: &Word) -> Result<Text, Memory>
    ensures { IfOk result (λ t. t ≡ text_of_tag word.now) }
{
    match word {
        Word::Tag(text) => text.copy(),
        _ => Text::new(alloc, ""),
    }
}

fn annotated(term: Term, annotation: Annotation) -> Term
    ensures { result ≡ annotated annotation term }
{
    match term {
        Term::Lit(text, _) => Term::Lit(text, annotation),
        other => other,
    }
}

fn annotated_triple(triple: Triple, annotation: Annotation) -> Triple
    ensures { result ≡ annotated_triple annotation triple }
{
    let Triple {
        subject,
        predicate,
        object,
        at,
    } = triple;
    Triple {
        subject,
        predicate,
        object: annotated(object, annotation),
        at,
    }
}

impl Document {
    /// The state before the first token, with a seed for hashes.
    pub fn new(alloc: Global, base: &str, seed: Seed) -> Result<Document, Memory>
        ensures { IfOk result (λ d. d ≡ begun base.now) }
    {
        let base = Base::new(alloc, base)?;
        let prefix = Text::new(alloc, "")?;
        let subject = no_iri(alloc)?;
        let predicate = no_iri(alloc)?;
        Ok(Document {
            base,
            prefixes: Prefixes::new(alloc, seed),
            prefix,
            subject,
            predicate,
            outer: Items::new(alloc),
            triples: Items::new(alloc),
            unknown: None,
            relative: None,
        })
    }

    // The IRI of a reference or of a name.
    fn iri_of(&self, alloc: Global, word: &Word) -> Result<Option<Text>, Memory>
        ensures { IfOk result (λ o. o ≡ iri_of word.now self.now) }
    {
        iri_named(alloc, word, self.base.as_str(), &self.prefixes)
    }

    fn note_iri(&mut self, iri: &Option<Text>, at: usize)
        ensures { self.new ≡ noted_iri iri.now at self.old }
    {
        match iri {
            None => self.unknown = earlier(self.unknown, at),
            Some(iri) => if !is_absolute(iri.as_str()) {
                self.relative = earlier(self.relative, at);
            },
        }
    }

    // The IRI of a token, whose place is noted where there is none or it is not absolute.
    fn iri(&mut self, alloc: Global, lexeme: &Lexeme) -> Result<Text, Memory>
        ensures value { IfOk result (λ t. t ≡ iri_text lexeme.now self.old) }
        ensures noted { OnOk result (self.new ≡ noted lexeme.now self.old) }
    {
        match &lexeme.word {
            Word::Reference(_) | Word::Name(_, _) => {
                let iri = self.iri_of(alloc, &lexeme.word)?;
                self.note_iri(&iri, lexeme.at);
                or_empty(alloc, iri)
            }
            _ => Text::new(alloc, ""),
        }
    }

    // The term of a token. What is wrong with an IRI is noted.
    fn term(&mut self, alloc: Global, lexeme: &Lexeme) -> Result<Term, Memory>
        ensures value { IfOk result (λ t. t ≡ term_of lexeme.now.word self.old) }
        ensures noted { OnOk result (self.new ≡ noted lexeme.now self.old) }
    {
        match &lexeme.word {
            Word::Label(text) => Ok(Term::Blank(text.copy()?)),
            Word::Quoted(text) => Ok(Term::Lit(text.copy()?, Annotation::Plain)),
            Word::Integer(text) => typed(alloc, text.copy()?, XSD_INTEGER),
            Word::Decimal(text) => typed(alloc, text.copy()?, XSD_DECIMAL),
            Word::Double(text) => typed(alloc, text.copy()?, XSD_DOUBLE),
            Word::Boolean(text) => typed(alloc, text.copy()?, XSD_BOOLEAN),
            Word::IsA => Ok(Term::Iri(Text::new(alloc, RDF_TYPE)?)),
            _ => Ok(Term::Iri(self.iri(alloc, lexeme)?)),
        }
    }

    // The base is moved by a reference, in place where that is plain.
    fn move_base(&mut self, alloc: Global, reference: &str, at: usize) -> Result<(), Memory>
        ensures { OnOk result (self.new ≡ based (resolve self.old.base reference.now) at self.old) }
    {
        let base = mem::replace(&mut self.base, Base::empty(alloc));
        self.base = base.moved(alloc, reference)?;
        if !self.base.is_absolute() {
            self.relative = earlier(self.relative, at);
        }
        Ok(())
    }

    fn set_base(&mut self, alloc: Global, lexeme: &Lexeme) -> Result<(), Memory>
        ensures { OnOk result (self.new ≡ act BaseIri lexeme.now self.old) }
    {
        match &lexeme.word {
            Word::Reference(text) => self.move_base(alloc, text.as_str(), lexeme.at),
            _ => {
                let iri = self.iri(alloc, lexeme)?;
                self.base = Base::new(alloc, iri.as_str())?;
                Ok(())
            }
        }
    }

    fn set_prefix(&mut self, alloc: Global, lexeme: &Lexeme) -> Result<(), Memory>
        ensures { OnOk result (self.new ≡ act PrefixName lexeme.now self.old) }
    {
        let prefix = prefix_of(alloc, &lexeme.word)?;
        self.prefix = prefix;
        Ok(())
    }

    fn declare(&mut self, alloc: Global, lexeme: &Lexeme) -> Result<(), Memory>
        ensures { OnOk result (self.new ≡ act PrefixIri lexeme.now self.old) }
    {
        let iri = self.iri(alloc, lexeme)?;
        self.prefixes.declare(alloc, self.prefix.as_str(), iri)
    }

    fn set_subject(&mut self, alloc: Global, lexeme: &Lexeme) -> Result<(), Memory>
        ensures { OnOk result (self.new ≡ act Subject lexeme.now self.old) }
    {
        let term = self.term(alloc, lexeme)?;
        self.subject = term;
        Ok(())
    }

    fn set_predicate(&mut self, alloc: Global, lexeme: &Lexeme) -> Result<(), Memory>
        ensures { OnOk result (self.new ≡ act Verb lexeme.now self.old) }
    {
        let term = self.term(alloc, lexeme)?;
        self.predicate = term;
        Ok(())
    }

    fn push_triple(&mut self, object: Term, at: usize) -> Result<(), Memory>
        ensures { OnOk result (self.new ≡ with_object object at self.old) }
    {
        let subject = self.subject.copy()?;
        let predicate = self.predicate.copy()?;
        self.triples.push(Triple {
            subject,
            predicate,
            object,
            at,
        })
    }

    fn add_object(&mut self, alloc: Global, lexeme: &Lexeme) -> Result<(), Memory>
        ensures { OnOk result (self.new ≡ act Object lexeme.now self.old) }
    {
        let term = self.term(alloc, lexeme)?;
        self.push_triple(term, lexeme.at)
    }

    fn annotate(&mut self, annotation: Annotation) -> Result<(), Memory>
        ensures { OnOk result (self.new ≡ with_annotation annotation self.old) }
    {
        match self.triples.pop() {
            Some(last) => self.triples.push(annotated_triple(last, annotation)),
            None => Ok(()),
        }
    }

    fn set_datatype(&mut self, alloc: Global, lexeme: &Lexeme) -> Result<(), Memory>
        ensures { OnOk result (self.new ≡ act Datatype lexeme.now self.old) }
    {
        let iri = self.iri(alloc, lexeme)?;
        self.annotate(Annotation::typed(iri))
    }

    fn set_language(&mut self, alloc: Global, lexeme: &Lexeme) -> Result<(), Memory>
        ensures { OnOk result (self.new ≡ act Language lexeme.now self.old) }
    {
        let tag = tag_of(alloc, &lexeme.word)?;
        self.annotate(Annotation::Lang(tag))
    }

    fn open_subject(&mut self, alloc: Global, at: usize) -> Result<(), Memory>
        ensures { OnOk result (self.new ≡ with_subject (node_at at) self.old) }
    {
        let node = node_at(alloc, at)?;
        self.subject = node;
        Ok(())
    }

    fn push_outer(&mut self) -> Result<(), Memory>
        ensures { OnOk result (self.new ≡ with_outer self.old) }
    {
        let subject = self.subject.copy()?;
        let predicate = self.predicate.copy()?;
        self.outer.push(Outer { subject, predicate })
    }

    fn open_object(&mut self, alloc: Global, at: usize) -> Result<(), Memory>
        ensures { OnOk result (self.new ≡ opened at self.old) }
    {
        let node = node_at(alloc, at)?;
        self.push_triple(node, at)?;
        self.push_outer()?;
        self.open_subject(alloc, at)
    }

    fn close_object(&mut self)
        ensures { self.new ≡ restored (last_of self.old.outer) self.old }
    {
        match self.outer.pop() {
            Some(Outer { subject, predicate }) => {
                self.subject = subject;
                self.predicate = predicate;
            }
            None => {}
        }
    }

    /// What a token that means this does.
    pub fn act(&mut self, alloc: Global, role: Role, lexeme: &Lexeme) -> Result<(), Memory>
        ensures { OnOk result (self.new ≡ act role lexeme.now self.old) }
    {
        match role {
            Role::PrefixName => self.set_prefix(alloc, lexeme),
            Role::PrefixIri => self.declare(alloc, lexeme),
            Role::BaseIri => self.set_base(alloc, lexeme),
            Role::Subject => self.set_subject(alloc, lexeme),
            Role::Verb => self.set_predicate(alloc, lexeme),
            Role::Object => self.add_object(alloc, lexeme),
            Role::Datatype => self.set_datatype(alloc, lexeme),
            Role::Language => self.set_language(alloc, lexeme),
            Role::OpenSubject => self.open_subject(alloc, lexeme.at),
            Role::OpenObject => self.open_object(alloc, lexeme.at),
            Role::CloseObject => {
                self.close_object();
                Ok(())
            }
            Role::Choice | Role::Other => Ok(()),
        }
    }
}
