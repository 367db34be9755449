//! The relations that are there at one world.

ghost use Rattle.std.specs.Prelude.{◌≡◌, IfOk, map, option_map};
ghost use Rattle.gsn.specs.View.{relation_of};
ghost use Rattle.case_derive.specs.AtWorld.{relation_at, relations_at};

use crate::places::Places;
use crate::truth::Truth;
use doc_tree::NoMemory;
use gsn::CRel;
use lifted_case::LRel;
use std::alloc::Global;

/// The relation between the new numbers of its ends, where it and both of them are there.
fn relation<T: Truth>(relation: &LRel<T::C>, places: &Places, truth: &T) -> Option<CRel>
    ensures { option_map relation_of result ≡ relation_at (T.holds truth.now) places.now.marks.items relation.now }
{
    if !truth.at(relation.when) {
        return None;
    }
    let from = places.at(relation.from)?;
    let to = places.at(relation.to)?;
    Some(CRel {
        from,
        to,
        kind: relation.kind,
    })
}

/// The relations that are there with both their ends, in their order.
pub fn relations<T: Truth>(
    alloc: Global,
    relations: &[LRel<T::C>],
    places: &Places,
    truth: &T,
) -> Result<Vec<CRel>, NoMemory>
    ensures { IfOk result (λ v. map relation_of v.items ≡ relations_at (T.holds truth.now) places.now.marks.items relations.now) }
{
    let mut there = Vec::new(alloc);
    'relations: for one in relations {
        if let Some(found) = relation(one, places, truth) {
            there.push(found)?;
        }
    }
    Ok(there)
}
