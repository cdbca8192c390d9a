// Why a script has no typing.
use liq_base::Text;
use thiserror::Error;

/// A fault of names and arguments within a statement, at a token.
#[derive(Debug, Drop)]
pub enum NameFault {
    /// The name stands for nothing here, or for nothing of its sort.
    Unknown { at: u32 },

    /// The first parameter of the call that needs an argument and has none.
    Missing { at: u32, label: Text },

    /// No parameter takes the argument that begins here.
    Extra { at: u32 },

    /// An earlier parameter has this name.
    Repeated { at: u32 },
}

/// The first fault of names, arguments and types. Statements are counted from 1, tokens from 0.
#[derive(Debug, Drop, Error)]
pub enum TypeFault {
    /// A name that stands for nothing here.
    #[error("statement {stmt}: unknown name at token {at}")]
    UnknownName { stmt: u32, at: u32 },

    /// The first parameter of a call that needs an argument and has none.
    #[error("statement {stmt}: missing argument {} at token {at}", .label.as_str())]
    MissingArgument { stmt: u32, at: u32, label: Text },

    /// An argument that no parameter takes.
    #[error("statement {stmt}: extra argument at token {at}")]
    ExtraArgument { stmt: u32, at: u32 },

    /// A parameter of the name of an earlier one.
    #[error("statement {stmt}: repeated name at token {at}")]
    RepeatedName { stmt: u32, at: u32 },

    /// The statements up to this one have no typing.
    #[error("statement {stmt}: types clash")]
    TypeClash { stmt: u32 },

    /// Memory was refused.
    #[error("out of memory")]
    Memory,
}
