//! The data of a typed model whose elements, links and transitions have presence conditions.

use cond_text::{Expr, Names};
use doc_tree::{Row, Word};

/// A type of elements. A number of a type is its place in the model's list of types.
#[derive(Drop)]
pub struct TypeDef {
    pub name: Word,
    /// An earlier type.
    pub parent: Option<u16>,
    /// The names of the attributes: those of the parent first, then the type's own.
    pub attributes: Names,
    /// Whether its elements have systems, by its own mark or its parent's.
    pub system: bool,
}

/// A kind of links, with the types of the two ends.
#[derive(Drop)]
pub struct LinkKind {
    pub name: Word,
    pub from: u16,
    pub to: u16,
}

/// An element, there in the products where `when` holds.
#[derive(Drop)]
pub struct Element {
    pub name: Word,
    pub of_type: u16,
    /// Over the features of the line.
    pub when: Expr,
    /// The values, in the order of the type's attributes.
    pub attributes: Row<Word>,
    /// The place of its system, where its type is a system type.
    pub system: Option<u16>,
}

/// A link between two elements, there in the products that have both and where `when` holds.
#[derive(Drop)]
pub struct Link {
    pub kind: u16,
    pub from: u16,
    pub to: u16,
    pub when: Expr,
}

/// A featured transition system (Classen et al.), which belongs to an element.
#[derive(Drop)]
pub struct System {
    pub element: u16,
    pub states: Row<State>,
    pub transitions: Row<Transition>,
}

/// A state of a system, with the numbers of its labels.
#[derive(Drop)]
pub struct State {
    pub name: Word,
    pub initial: bool,
    pub labels: Row<u16>,
}

/// A transition between two states of one system, there in the products where `when` holds.
#[derive(Drop)]
pub struct Transition {
    pub from: u16,
    pub to: u16,
    pub action: Word,
    pub when: Expr,
}
