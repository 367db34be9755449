//! What a case file holds beside what the text of a product shows: keys, findings and systems.

use doc_tree::Word;
use lifted_case::{LCheck, LFinding, LNode, LSystem, read_case};
use std::alloc::AllocError;
use std::fmt::Write;
use std::test::Fail;

/// All kinds of nodes, relations and checks, and texts that are empty or stand side by side, with `'` in place of `"`.
const ALL_KINDS: &str =
    "{'case':1,'features':['R','A'],'nodes':[{'key':'0','kind':'goal','text':[],'undeveloped':true,'when':1},{'branches':[0,1,2,3],'key':'1','kind':'strategy','text':['a','',0,0,'b'],'undeveloped':true,'when':3},{'key':'2','kind':'context','text':['c'],'when':0},{'key':'3','kind':'assumption','text':['d'],'when':2},{'key':'4','kind':'justification','text':['e'],'when':2},{'finding':{'check':'never','expr':'bad','refuted':0,'system':1,'targets':[[1,3],[0,1]]},'key':'5','kind':'solution','text':['f'],'when':2},{'finding':{'check':'deadlock','refuted':1,'system':0,'targets':[]},'key':'6','kind':'solution','text':['g'],'when':2},{'finding':{'check':'none','refuted':2,'witnesses':[[['x','y'],3],[[],0]]},'key':'7','kind':'solution','text':['h'],'when':2},{'finding':{'check':'some','refuted':3,'witnesses':[]},'key':'8','kind':'solution','text':['i'],'when':2}],'relations':[{'from':0,'kind':'supported','to':8,'when':3},{'from':8,'kind':'context','to':8,'when':0}],'systems':[{'element':'x','parents':[],'reached':[1],'states':['s'],'transitions':[]},{'element':'y','parents':[0,3],'reached':[2,1],'states':['t','u'],'transitions':[[1,1,'go'],[1,0,'']]}],'table':[[1,0,1],[0,1,2]],'title':'','valid':3}";

fn put_words(out: &mut String, words: &[Word]) -> Result<(), AllocError> {
    for word in words {
        out.push(' ')?;
        out.push_str(word.text())?;
    }
    Ok(())
}

fn put_numbers(out: &mut String, numbers: &[u32]) -> Result<(), AllocError> {
    out.push_str(" /")?;
    for number in numbers {
        write!(out, " {number}")?;
    }
    Ok(())
}

fn put_check(out: &mut String, check: &LCheck) -> Result<(), AllocError> {
    match check {
        LCheck::Never(system, property) => {
            let property = property.text();
            write!(out, " never {system} {property}")
        }
        LCheck::NoDeadlock(system) => write!(out, " deadlock {system}"),
        LCheck::NoAnswer => out.push_str(" none"),
        LCheck::SomeAnswer => out.push_str(" some"),
    }
}

fn put_finding(out: &mut String, finding: &LFinding<u32>) -> Result<(), AllocError> {
    put_check(out, &finding.check)?;
    let refuted = finding.refuted;
    write!(out, " {refuted} /")?;
    for target in finding.targets.list() {
        let (state, id) = *target;
        write!(out, " {state} {id}")?;
    }
    for witness in finding.witnesses.list() {
        let (names, id) = witness;
        put_words(out, names.list())?;
        write!(out, " {id}")?;
    }
    Ok(())
}

fn put_node(out: &mut String, node: &LNode<u32>) -> Result<(), AllocError> {
    out.push_str(node.key.text())?;
    if let Some(finding) = &node.finding {
        put_finding(out, finding)?;
    }
    out.push('\n')
}

fn put_system(out: &mut String, system: &LSystem<u32>) -> Result<(), AllocError> {
    out.push_str(system.element.text())?;
    put_words(out, system.states.list())?;
    put_numbers(out, system.reached.list())?;
    put_numbers(out, system.parents.list())?;
    for transition in system.transitions.list() {
        let (from, to, action) = transition;
        let action = action.text();
        write!(out, " / {from} {to} {action}")?;
    }
    out.push('\n')
}

const SHOWN: &str = "0\n1\n2\n3\n4
5 never 1 bad 0 / 1 3 0 1
6 deadlock 0 1 /
7 none 2 / x y 3 0
8 some 3 /
x s / 1 /
y t u / 2 1 / 0 3 / 1 1 go / 1 0 
";

#[test]
fn every_member_is_read(rt: HostRuntime) -> Result<(), Fail> {
    let json = ALL_KINDS.replace(rt.alloc(), "'", "\"")?;
    let case = read_case(rt.alloc(), json.as_bytes())?;
    let mut out = String::new(rt.alloc());
    for node in case.lifted.nodes.list() {
        put_node(&mut out, node)?;
    }
    for system in case.lifted.systems.list() {
        put_system(&mut out, system)?;
    }
    assert_eq!(rt; out.as_str(), SHOWN);
    Ok(())
}
