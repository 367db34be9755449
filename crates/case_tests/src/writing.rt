//! A case to the byte.

ghost use Rattle.std.specs.Prelude.{◌≡◌, IfOk};
ghost use Rattle.conditions.specs.Diagrams.{algebra_of};

use crate::cases::checks_case;
use conditions::{Cond, Diagrams};
use lifted_case::write_case;
use std::alloc::Global;
use std::test::Fail;
use worlds::{NodeLimit, Worlds};

/// The worlds of a condition, and of these those with the second of two features.
fn within(d: &mut Diagrams, valid: Cond) -> Result<(Cond, Cond), NodeLimit>
    requires features { d.old.region.vars ≡ 2 }
    requires live { (algebra_of d.old).live valid }
    ensures features { d.new.region.vars ≡ 2 }
    ensures valid { IfOk result (λ t. (algebra_of d.new).live t.0) }
    ensures other { IfOk result (λ t. (algebra_of d.new).live t.1) }
{
    d.restrict(valid);
    let other = d.feature(1)?;
    let valid = d.always();
    Ok((valid, other))
}

fn write_checks(
    alloc: Global,
    d: &Diagrams,
    valid: Cond,
    other: Cond,
    none: Cond,
) -> Result<Vec<u8>, Fail>
    requires features { d.now.region.vars ≡ 2 }
    requires valid_live { (algebra_of d.now).live valid }
    requires other_live { (algebra_of d.now).live other }
    requires none_live { (algebra_of d.now).live none }
{
    let case = checks_case(alloc, valid, other, none)?;
    Ok(write_case(alloc, &case, d)?)
}

/// Each form of check, with `'` in place of `"`.
const CHECKS: &str =
    "{'case':1,'features':['R','A'],'nodes':[{'finding':{'check':'never','expr':'bad','refuted':4,'system':0,'targets':[[1,4]]},'key':'0','kind':'solution','text':['V'],'when':2},{'finding':{'check':'deadlock','refuted':4,'system':0,'targets':[[0,4]]},'key':'1','kind':'solution','text':['D'],'when':2},{'finding':{'check':'none','refuted':2,'witnesses':[[['x','y'],4]]},'key':'2','kind':'solution','text':['N'],'when':2},{'finding':{'check':'some','refuted':0,'witnesses':[]},'key':'3','kind':'solution','text':['S'],'when':2}],'relations':[],'systems':[{'element':'x','parents':[4],'reached':[2,4],'states':['s','bad'],'transitions':[[0,1,'slip']]}],'table':[[0,0,1],[1,0,1],[0,0,3]],'title':'M','valid':2}\n";

#[test]
fn each_check_is_written_with_its_system(rt: HostRuntime) -> Result<(), Fail> {
    let alloc = rt.alloc();
    let mut d = Diagrams::new(alloc, 100, 2)?;
    let root = d.feature(0)?;
    let (valid, other) = within(&mut d, root)?;
    let none = d.never();
    let bytes = write_checks(alloc, &d, valid, other, none)?;
    let wanted = CHECKS.replace(alloc, "'", "\"")?;
    assert_eq!(rt; bytes.as_slice(), wanted.as_bytes());
    Ok(())
}
