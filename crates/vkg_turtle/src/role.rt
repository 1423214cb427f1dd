/// What a token means where it stands in a document.
#[derive(Clone, Copy)]
pub enum Role {
    /// The symbol is no token.
    Choice,
    /// A sign or a word that means nothing by itself.
    Other,
    /// The prefix that is declared.
    PrefixName,
    /// What the prefix stands for.
    PrefixIri,
    /// The new base.
    BaseIri,
    Subject,
    Verb,
    Object,
    /// The datatype of the literal before it.
    Datatype,
    /// The language of the literal before it.
    Language,
    /// A bracket that begins a statement: its node is the subject.
    OpenSubject,
    /// A bracket that is an object: its node is the subject until the bracket is closed.
    OpenObject,
    CloseObject,
}
