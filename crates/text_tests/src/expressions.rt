//! Names and printed expressions, which no output of the program shows.

ghost use Rattle.std.specs.Prelude.{◌≡◌, length, IfOk};

use cond_text::{NameStop, Names, is_name, parse, print};
use std::alloc::Global;
use std::test::Fail;

/// The names a, b, c and d.
fn four_names(alloc: Global) -> Result<Names, NameStop>
    ensures { IfOk result (λ names. length names ≡ 4) }
{
    let mut names = Names::new(alloc);
    names.add("a")?;
    names.add("b")?;
    names.add("c")?;
    names.add("d")?;
    Ok(names)
}

#[test]
fn names_are_numbered_and_not_repeated(rt: HostRuntime) -> Result<(), Fail> {
    let mut names = four_names(rt.alloc())?;
    let added = names.add("e")?;
    let repeated = names.add("d");
    assert_eq!(rt; (added, repeated), (4, Err(NameStop::Repeated(3))));
    let found = (names.count(), names.find("a"), names.find("C"));
    assert_eq!(rt; found, (5, Some(0), None));
    assert!(rt; is_name("a_1") && !is_name("true"));
    Ok(())
}

const READ: &str = "a&b|!c=>d
(a => b) => c
a => (b => c)
a & (b & c)
((a & b)) & c
a|(b|c)
(a|b)|c
a<=>(b<=>c)
(a<=>b)<=>c
! ! ( a )
!(a&b)&!a
(a|b)&(c|d)
(a&b)|(c&d)
(a=>b)|c
(a<=>b)=>c
a=>(b<=>c)
(a|b=>c)<=>d
  true|false ";

const PRINTED: &str = "a & b | !c => d
(a => b) => c
a => b => c
a & (b & c)
a & b & c
a | (b | c)
a | b | c
a <=> (b <=> c)
a <=> b <=> c
!!a
!(a & b) & !a
(a | b) & (c | d)
a & b | c & d
(a => b) | c
(a <=> b) => c
a => (b <=> c)
a | b => c <=> d
true | false
";

#[test]
fn expressions_are_printed_with_few_parentheses(rt: HostRuntime) -> Result<(), Fail> {
    let names = four_names(rt.alloc())?;
    let mut printed = String::new(rt.alloc());
    for line in READ.lines() {
        let expression = parse(rt.alloc(), line, &names)?;
        printed.push_str(print(rt.alloc(), &expression, &names)?.as_str())?;
        printed.push('\n')?;
    }
    assert_eq!(rt; printed.as_str(), PRINTED);
    Ok(())
}
