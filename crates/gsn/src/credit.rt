//! What a marked node does for the nodes above it.

ghost use Rattle.std.specs.Prelude.{◌≡◌, ◌<◌, ◌≤◌, OnOk, length, vec_len};
ghost use Rattle.gsn.specs.Incoming.{IsIncoming, targets};
ghost use Rattle.gsn.specs.Marks.{JoinsNodes, IsCredited, KeepsUnderWay};

use crate::case::{CRel, RelKind};
use crate::incoming::Incoming;
use doc_tree::NoMemory;
use std::alloc::AllocFailed;

/// The target of this relation has been marked: its source wants one support less, and waits to be marked if it now wants none.
fn credit(
    relation: &CRel,
    missing: &mut Vec<usize>,
    pending: &mut Vec<usize>,
) -> Result<(), NoMemory>
    requires { relation.now.from < vec_len missing.old }
    ensures sized { vec_len missing.new ≡ vec_len missing.old }
    ensures credited { OnOk result (IsCredited relation.now missing.old.items pending.old.items missing.new.items pending.new.items) }
{
    let source = relation.from as usize;
    if relation.kind == RelKind::SupportedBy && missing[source] > 0 {
        missing[source] -= 1;
        if missing[source] == 0 {
            pending.push(source)?;
        }
    }
    Ok(())
}

/// Credits the relations to a node.
pub fn credit_all(
    node: usize,
    relations: &[CRel],
    incoming: &Incoming,
    missing: &mut Vec<usize>,
    pending: &mut Vec<usize>,
) -> Result<(), NoMemory>
    requires node { node < vec_len missing.old }
    requires ends { JoinsNodes (vec_len missing.old) relations.now }
    requires incoming { IsIncoming (vec_len missing.old) (targets relations.now) (length relations.now) incoming.now.last.items incoming.now.before.items }
    ensures sized { vec_len missing.new ≡ vec_len missing.old }
    ensures credited { OnOk result (KeepsUnderWay node relations.now incoming.now.last.items
        missing.old.items pending.old.items missing.new.items pending.new.items) }
{
    let mut place = incoming.last[node];
    'chain: while place > 0 {
        credit(&relations[place - 1], missing, pending)?;
        place = incoming.before[place - 1];
    }
    Ok(())
}
