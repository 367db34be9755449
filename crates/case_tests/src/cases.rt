//! A case with each form of check, whatever its conditions.

ghost use Rattle.std.specs.Prelude.{◌≡◌, ◌∷◌, [], codes, IfOk};
ghost use Rattle.case_tests.specs.CaseExamples.{solution_node, never_finding, deadlock_finding, no_answer, some_answer, small_system, all_checks};

use cond_text::Names;
use conditions::Cond;
use doc_tree::{NoMemory, Row, Word};
use gsn::NodeKind;
use lifted_case::{LCheck, LFinding, LNode, LPart, LSystem, Lifted};
use std::alloc::Global;
use std::test::Fail;

fn solution(
    alloc: Global,
    key: &str,
    words: &str,
    when: Cond,
    finding: LFinding<Cond>,
) -> Result<LNode<Cond>, NoMemory>
    ensures { IfOk result (λ n. n ≡ solution_node key.now words.now when finding) }
{
    let words = LPart::Words(Word::of(alloc, words)?);
    Ok(LNode {
        key: Word::of(alloc, key)?,
        kind: NodeKind::Solution,
        text: Row::of(vec![in alloc; words]?),
        when,
        undeveloped: false,
        branches: Row::of(Vec::new(alloc)),
        finding: Some(finding),
    })
}

fn features(alloc: Global) -> Result<Names, Fail>
    ensures { IfOk result (λ n. n ≡ codes "R" ∷ codes "A" ∷ []) }
{
    let mut names = Names::new(alloc);
    names.add("R")?;
    names.add("A")?;
    Ok(names)
}

fn never(alloc: Global, refuted: Cond) -> Result<LFinding<Cond>, Fail>
    ensures { IfOk result (λ f. f ≡ never_finding refuted) }
{
    Ok(LFinding {
        check: LCheck::Never(0, Word::of(alloc, "bad")?),
        refuted,
        targets: Row::of(vec![in alloc; (1, refuted)]?),
        witnesses: Row::of(Vec::new(alloc)),
    })
}

fn deadlock(alloc: Global, refuted: Cond) -> Result<LFinding<Cond>, Fail>
    ensures { IfOk result (λ f. f ≡ deadlock_finding refuted) }
{
    Ok(LFinding {
        check: LCheck::NoDeadlock(0),
        refuted,
        targets: Row::of(vec![in alloc; (0, refuted)]?),
        witnesses: Row::of(Vec::new(alloc)),
    })
}

fn none_found(alloc: Global, refuted: Cond, witness: Cond) -> Result<LFinding<Cond>, Fail>
    ensures { IfOk result (λ f. f ≡ no_answer refuted witness) }
{
    let first = Word::of(alloc, "x")?;
    let second = Word::of(alloc, "y")?;
    let names = Row::of(vec![in alloc; first, second]?);
    Ok(LFinding {
        check: LCheck::NoAnswer,
        refuted,
        targets: Row::of(Vec::new(alloc)),
        witnesses: Row::of(vec![in alloc; (names, witness)]?),
    })
}

fn some_found(alloc: Global, refuted: Cond) -> LFinding<Cond>
    ensures { result ≡ some_answer refuted }
{
    LFinding {
        check: LCheck::SomeAnswer,
        refuted,
        targets: Row::of(Vec::new(alloc)),
        witnesses: Row::of(Vec::new(alloc)),
    }
}

fn system(alloc: Global, valid: Cond, other: Cond) -> Result<LSystem<Cond>, Fail>
    ensures { IfOk result (λ s. s ≡ small_system valid other) }
{
    let first = Word::of(alloc, "s")?;
    let second = Word::of(alloc, "bad")?;
    let slip = (0, 1, Word::of(alloc, "slip")?);
    Ok(LSystem {
        element: Word::of(alloc, "x")?,
        states: Row::of(vec![in alloc; first, second]?),
        reached: Row::of(vec![in alloc; valid, other]?),
        transitions: Row::of(vec![in alloc; slip]?),
        parents: Row::of(vec![in alloc; other]?),
    })
}

pub fn checks_case(
    alloc: Global,
    valid: Cond,
    other: Cond,
    none: Cond,
) -> Result<Lifted<Cond>, Fail>
    ensures { IfOk result (λ c. c ≡ all_checks valid other none) }
{
    let slips = solution(alloc, "0", "V", valid, never(alloc, other)?)?;
    let stays = solution(alloc, "1", "D", valid, deadlock(alloc, other)?)?;
    let lacks = solution(alloc, "2", "N", valid, none_found(alloc, valid, other)?)?;
    let has = solution(alloc, "3", "S", valid, some_found(alloc, none))?;
    Ok(Lifted {
        title: Word::of(alloc, "M")?,
        features: features(alloc)?,
        valid,
        nodes: Row::of(vec![in alloc; slips, stays, lacks, has]?),
        relations: Row::of(Vec::new(alloc)),
        systems: Row::of(vec![in alloc; system(alloc, valid, other)?]?),
    })
}
