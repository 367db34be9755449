//! The conditions of a case in the order of its document.

ghost use Rattle.std.specs.Prelude.{◌≡◌, ◌++◌, map, IfOk, OnOk};
ghost use Rattle.meaning.specs.Texts.{flat};
ghost use Rattle.lifted_case.specs.CaseWritten.{conditions_of_finding, conditions_of_node, conditions_of_system, conditions_in};

use crate::lifted::{LFinding, LNode, LRel, LSystem, Lifted};
use conditions::Cond;
use doc_tree::{NoMemory, Row, Word};
use std::alloc::Global;

fn walk_targets(walk: &mut Vec<Cond>, targets: &[(u16, Cond)]) -> Result<(), NoMemory>
    ensures { OnOk result (walk.new.items ≡ walk.old.items ++ map (λ t. t.1) targets.now) }
{
    'targets: for target in targets {
        walk.push(target.1)?;
    }
    Ok(())
}

fn walk_witnesses(walk: &mut Vec<Cond>, witnesses: &[(Row<Word>, Cond)]) -> Result<(), NoMemory>
    ensures { OnOk result (walk.new.items ≡ walk.old.items ++ map (λ x. x.1) witnesses.now) }
{
    'witnesses: for witness in witnesses {
        walk.push(witness.1)?;
    }
    Ok(())
}

fn walk_finding(walk: &mut Vec<Cond>, finding: &Option<LFinding<Cond>>) -> Result<(), NoMemory>
    ensures { OnOk result (walk.new.items ≡ walk.old.items ++ conditions_of_finding finding.now) }
{
    match finding {
        Some(finding) => {
            walk.push(finding.refuted)?;
            walk_targets(walk, finding.targets.list())?;
            walk_witnesses(walk, finding.witnesses.list())?;
            Ok(())
        }
        None => Ok(()),
    }
}

fn walk_conditions(walk: &mut Vec<Cond>, conditions: &[Cond]) -> Result<(), NoMemory>
    ensures { OnOk result (walk.new.items ≡ walk.old.items ++ conditions.now) }
{
    'conditions: for condition in conditions {
        walk.push(*condition)?;
    }
    Ok(())
}

fn walk_node(walk: &mut Vec<Cond>, node: &LNode<Cond>) -> Result<(), NoMemory>
    ensures { OnOk result (walk.new.items ≡ walk.old.items ++ conditions_of_node node.now) }
{
    walk.push(node.when)?;
    walk_conditions(walk, node.branches.list())?;
    walk_finding(walk, &node.finding)?;
    Ok(())
}

fn walk_nodes(walk: &mut Vec<Cond>, nodes: &[LNode<Cond>]) -> Result<(), NoMemory>
    ensures { OnOk result (walk.new.items ≡ walk.old.items ++ flat conditions_of_node nodes.now) }
{
    'nodes: for node in nodes {
        walk_node(walk, node)?;
    }
    Ok(())
}

fn walk_relations(walk: &mut Vec<Cond>, relations: &[LRel<Cond>]) -> Result<(), NoMemory>
    ensures { OnOk result (walk.new.items ≡ walk.old.items ++ map (λ r. r.when) relations.now) }
{
    'relations: for relation in relations {
        walk.push(relation.when)?;
    }
    Ok(())
}

fn walk_system(walk: &mut Vec<Cond>, system: &LSystem<Cond>) -> Result<(), NoMemory>
    ensures { OnOk result (walk.new.items ≡ walk.old.items ++ conditions_of_system system.now) }
{
    walk_conditions(walk, system.reached.list())?;
    walk_conditions(walk, system.parents.list())?;
    Ok(())
}

fn walk_systems(walk: &mut Vec<Cond>, systems: &[LSystem<Cond>]) -> Result<(), NoMemory>
    ensures { OnOk result (walk.new.items ≡ walk.old.items ++ flat conditions_of_system systems.now) }
{
    'systems: for system in systems {
        walk_system(walk, system)?;
    }
    Ok(())
}

/// All conditions of a case, in the order in which its document has them.
pub fn case_walk(alloc: Global, case: &Lifted<Cond>) -> Result<Vec<Cond>, NoMemory>
    ensures { IfOk result (λ v. v.items ≡ conditions_in case.now) }
{
    let mut walk = Vec::new(alloc);
    walk.push(case.valid)?;
    walk_nodes(&mut walk, case.nodes.list())?;
    walk_relations(&mut walk, case.relations.list())?;
    walk_systems(&mut walk, case.systems.list())?;
    Ok(walk)
}
