//! The kinds of refusals of a configuration, and how reading one fails.
use thiserror::Error;

/// Why a configuration is refused: for want of a token, by the grammar, or when it is checked.
#[derive(Clone, Copy, Debug, PartialEq, Eq, Error)]
pub enum ConfKind {
    /// No token begins here, or one that isn't complete or is too large.
    #[error("C1 Lex")]
    Lex,
    /// No sentence of the grammar has this token here.
    #[error("C2 Syntax")]
    Syntax,
    /// The token opens more than 64 levels.
    #[error("C3 TooDeep")]
    TooDeep,
    /// A name has no declaration of the wanted sort before it.
    #[error("C4 UnknownName")]
    UnknownName,
    /// A name is declared already.
    #[error("C5 DuplicateName")]
    DuplicateName,
    /// What stands here is of a sort that its place doesn't take.
    #[error("C6 TypeMismatch")]
    TypeMismatch,
    /// What stands here can't be assigned to, changed or unset.
    #[error("C7 NotAssignable")]
    NotAssignable,
    /// A filter or a function weighs over 10,000,000.
    #[error("C8 TooHeavy")]
    TooHeavy,
    /// A table, a net or an address is of the other family.
    #[error("C9 Nettype")]
    Nettype,
    /// A channel of an external BGP session says nothing of its imports or of its exports.
    #[error("C10 PolicyMissing")]
    PolicyMissing,
    /// A BGP protocol doesn't say how MEDs are compared.
    #[error("C11 MedRule")]
    MedRule,
    /// A pipe joins a table to itself, or two tables that the pipes before it join already.
    #[error("C12 PipeCycle")]
    PipeCycle,
    /// A static protocol has two routes of one net.
    #[error("C13 DuplicateStatic")]
    DuplicateStatic,
    /// A number, a range, a name or how many there are is over its limit.
    #[error("C14 Limit")]
    Limit,
    /// A word is known here and not supported, or what a protocol needs isn't there.
    #[error("C15 Unsupported")]
    Unsupported,
}

/// Why a text gives no configuration.
#[derive(Clone, Copy, Debug, PartialEq, Eq, Drop, Error)]
pub enum ConfFault {
    /// `at` is the byte at which the refused token begins: the text's length, where its end is
    /// refused.
    #[error("refused at byte {at}: {kind}")]
    Refused { at: usize, kind: ConfKind },
    #[error("out of memory")]
    Memory,
}
