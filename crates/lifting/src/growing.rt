//! The nodes and relations of a case as it grows.

ghost use Rattle.std.specs.Prelude.{◌≡◌, ◌<◌, ◌^◌, ◌++◌, [], ◌∷◌, length, IfErr, OnOk};
ghost use Rattle.gsn.specs.View.{kind_of};
ghost use Rattle.meaning.specs.Templates.{relation_to};
ghost use Rattle.lifting.specs.Noted.{Grows, Note, link_from, linked, conditions_to};
ghost use Rattle.gsn.specs.View.{relation_kind_of};
ghost use Rattle.lifting.specs.declared.stop.LiftStop.TheVariants.{NoMemory};

use crate::stop::LiftStop;
use gsn::{NodeKind, RelKind};
use lifted_case::{LNode, LRel};
use std::alloc::AllocFailed;

/// The nodes so far, the relations between them, and how many more entries there may be.
#[derive(Drop)]
pub struct Growing<C> {
    pub nodes: Vec<LNode<C>>,
    pub relations: Vec<LRel<C>>,
    pub left: u32,
}

/// Adds the relation to a node from the one above it, if there is one.
fn link<C: Copy>(
    relations: &mut Vec<LRel<C>>,
    above: Option<u32>,
    to: u32,
    kind: RelKind,
    when: C,
) -> Result<(), LiftStop>
    ensures links { OnOk result (relations.new.items ≡ relations.old.items ++ link_from above to kind when) }
    ensures memory { IfErr result (λ stop. stop ≡ NoMemory) }
{
    if let Some(from) = above {
        relations.push(LRel {
            from,
            to,
            kind,
            when,
        })?;
    }
    Ok(())
}

/// The kind of the relation to a node.
fn relation_kind(kind: NodeKind) -> RelKind
    ensures { relation_kind_of result ≡ relation_to (kind_of kind) }
{
    match kind {
        NodeKind::Context | NodeKind::Assumption | NodeKind::Justification => RelKind::InContextOf,
        NodeKind::Goal | NodeKind::Strategy | NodeKind::Solution => RelKind::SupportedBy,
    }
}

impl<C: Copy> Growing<C> {
    /// Adds a node, with the relation from the one above it.
    pub fn add(&mut self, node: LNode<C>, above: Option<u32>) -> Result<(), LiftStop>
        requires { length self.old.nodes.items < 2 ^ 32 }
        ensures grows { OnOk result ((note : Note C) → Grows self.old.nodes.items self.old.relations.items self.new.nodes.items self.new.relations.items
            ((node, note) ∷ []) (linked above (length self.old.nodes.items) ((node, note) ∷ [])) (conditions_to above ((node, note) ∷ []))) }
        ensures left { self.new.left ≡ self.old.left }
        ensures memory { IfErr result (λ stop. stop ≡ NoMemory) }
    {
        let place = self.nodes.len() as u32;
        let kind = relation_kind(node.kind);
        link(&mut self.relations, above, place, kind, node.when)?;
        self.nodes.push(node)?;
        Ok(())
    }
}
