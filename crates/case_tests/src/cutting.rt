//! A case that breaks the rules of case files, at a world: what is no condition and no node is not there.

ghost use Rattle.std.specs.Prelude.{◌≡◌, IfOk, length, codes, ◌∷◌, []};

use NodeKind::{Goal, Solution, Strategy};
use RelKind::SupportedBy;
use case_derive::{CutStop, cut};
use case_text::text;
use cond_text::Names;
use doc_tree::{NoMemory, Row, Word};
use gsn::{NodeKind, RelKind};
use lifted_case::{LCheck, LFinding, LNode, LPart, LRel, Lifted, ReadCase, read_case};
use std::alloc::Global;
use std::test::Fail;

fn node(alloc: Global, kind: NodeKind, part: LPart, when: u32) -> Result<LNode<u32>, NoMemory> {
    Ok(LNode {
        key: Word::of(alloc, "0")?,
        kind,
        text: Row::of(vec![in alloc; part]?),
        when,
        undeveloped: false,
        branches: Row::of(Vec::new(alloc)),
        finding: None,
    })
}

fn strategy(alloc: Global) -> Result<LNode<u32>, NoMemory> {
    let mut strategy = node(alloc, Strategy, LPart::Count, 1)?;
    strategy.branches = Row::of(vec![in alloc; u32::MAX, 9, 2, 3]?);
    Ok(strategy)
}

fn solution(alloc: Global) -> Result<LNode<u32>, NoMemory> {
    let words = LPart::Words(Word::of(alloc, "Sure")?);
    let mut solution = node(alloc, Solution, words, 1)?;
    solution.finding = Some(LFinding {
        check: LCheck::NoAnswer,
        refuted: u32::MAX,
        targets: Row::of(Vec::new(alloc)),
        witnesses: Row::of(Vec::new(alloc)),
    });
    Ok(solution)
}

fn relation(from: u32, to: u32, when: u32) -> LRel<u32> {
    LRel {
        from,
        to,
        kind: SupportedBy,
        when,
    }
}

fn lifted(alloc: Global, valid: u32, features: Names) -> Result<Lifted<u32>, NoMemory>
    ensures { IfOk result (λ c. c.features ≡ features) }
{
    let words = LPart::Words(Word::of(alloc, "Past")?);
    let past = node(alloc, Goal, words, u32::MAX)?;
    Ok(Lifted {
        title: Word::of(alloc, "T")?,
        features,
        valid,
        nodes: Row::of(vec![in alloc; strategy(alloc)?, past, solution(alloc)?]?),
        relations: Row::of(vec![in alloc;
            relation(0, u32::MAX, 1),
            relation(u32::MAX, 0, 1),
            relation(0, 3, 1),
            relation(0, 1, 1),
            relation(0, 2, 9),
            relation(0, 2, 1),
        ]?),
        systems: Row::of(Vec::new(alloc)),
    })
}

fn feature(alloc: Global) -> Result<Names, Fail>
    ensures { IfOk result (λ names. names ≡ codes "R" ∷ []) }
{
    let mut names = Names::new(alloc);
    names.add("R")?;
    Ok(names)
}

/// A table of one row, whose condition is 2.
const OF_ONE_ROW: &str =
    "{\"case\":1,\"features\":[\"R\"],\"nodes\":[],\"relations\":[],\"systems\":[],\"table\":[[0,0,1]],\"title\":\"T\",\"valid\":2}";

fn case(alloc: Global, valid: u32) -> Result<ReadCase, Fail>
    ensures { IfOk result (λ c. length c.lifted.features ≡ 1) }
{
    let mut case = read_case(alloc, OF_ONE_ROW.as_bytes())?;
    case.lifted = lifted(alloc, valid, feature(alloc)?)?;
    Ok(case)
}

const TEXT: &str =
    "case T\nwith R\nS1 strategy supported\n  1\n  supported by Sn1\nSn1 solution supported\n  Sure\n";

#[test]
fn what_is_no_condition_and_no_node_is_not_there(rt: HostRuntime) -> Result<(), Fail> {
    let alloc = rt.alloc();
    let found = cut(alloc, &case(alloc, 1)?, &[true])?;
    let text = text(alloc, &found, "T", &feature(alloc)?, &[true])?;
    assert_eq!(rt; text.as_slice(), TEXT.as_bytes());
    let stop = cut(alloc, &case(alloc, u32::MAX)?, &[true]).err();
    assert_eq!(rt; stop, Some(CutStop::NotValid));
    Ok(())
}
