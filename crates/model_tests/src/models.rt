//! What is read of whole models.

use annotated_model::{Element, Link, LinkKind, Model, State, System, Transition, TypeDef};
use cond_text::{Expr, NameStop, Names};
use doc_tree::{Doc, Word, from_json};
use std::alloc::Global;
use std::test::Fail;

/// Two levels of inheritance, a link to an element of a type below the kind's, and two systems that stand in another order than their elements.
const WHOLE: &str = r#"{"model":{
    "types":[{"name":"N","attributes":["a"],"system":true},{"name":"M","parent":"N","attributes":["b","c"]},{"name":"L","parent":"M"},{"name":"P"}],
    "kinds":[{"name":"j","from":"P","to":"P"},{"name":"k","from":"P","to":"N"}],
    "labels":["bad","good"],
    "elements":[{"name":"p","type":"P"},{"name":"x","type":"N","when":"A","attributes":{"a":"one"}},{"name":"y","type":"L","when":"!B","attributes":{"c":"3","a":"1","b":"2"}}],
    "links":[{"kind":"k","from":"p","to":"y","when":"A & B"}],
    "systems":[
        {"element":"y","states":[{"name":"s","initial":true},{"name":"t","labels":["good","bad"]}],"transitions":[{"from":"s","to":"t","action":"go","when":"B"},{"from":"t","to":"s","action":"back"}]},
        {"element":"x","states":[{"name":"s","initial":true}]}]}}"#;

/// The names R, A and B.
fn features(alloc: Global) -> Result<Names, NameStop> {
    let mut names = Names::new(alloc);
    names.add("R")?;
    names.add("A")?;
    names.add("B")?;
    Ok(names)
}

/// The model of a bundle document over these features.
fn boxed(alloc: Global, doc: &Doc, features: &Names) -> Result<Box<Model>, Fail> {
    let model = Model::read(alloc, doc, features)?;
    Ok(Box::new(alloc, model)?)
}

/// The model of a bundle.
fn read(alloc: Global, bundle: &str) -> Result<Box<Model>, Fail> {
    let features = features(alloc)?;
    let doc = from_json(alloc, bundle.as_bytes())?;
    boxed(alloc, &doc, &features)
}

/// Whether the names are these, in this order.
fn are_names(names: &Names, texts: &[&str]) -> bool {
    for (no, text) in texts.iter().enumerate() {
        if names.find(text).map(usize::from) != Some(no) {
            return false;
        }
    }
    usize::from(names.count()) == texts.len()
}

/// Whether the words are these texts.
fn are_words(words: &[Word], texts: &[&str]) -> bool {
    words.len() == texts.len()
        && words
            .iter()
            .zip(texts)
            .all(|(word, text)| word.text() == *text)
}

/// What a condition is: a name of a feature, or its outermost operation.
fn outermost(when: &Expr) -> &'static str {
    match when {
        Expr::Top => "true",
        Expr::Name(1) => "A",
        Expr::Name(2) => "B",
        Expr::Not(_) => "!",
        Expr::Both(_, _) => "&",
        _ => "another",
    }
}

/// Whether a type has this name and this parent, whether its elements have systems, and whether it has these attributes.
fn is_type(
    of: &TypeDef,
    name: &str,
    parent: Option<u16>,
    system: bool,
    attributes: &[&str],
) -> bool {
    of.name.text() == name
        && of.parent == parent
        && of.system == system
        && are_names(&of.attributes, attributes)
}

/// Whether the attributes and the mark of N are those of M and of L too.
fn are_the_types(types: &[TypeDef]) -> bool {
    let [n, m, l, p] = types else {
        return false;
    };
    is_type(n, "N", None, true, &["a"])
        && is_type(m, "M", Some(0), true, &["a", "b", "c"])
        && is_type(l, "L", Some(1), true, &["a", "b", "c"])
        && is_type(p, "P", None, false, &[])
}

/// Whether L is M and N, M is itself, and neither N is L nor P or a type that isn't there is N.
fn are_above(model: &Model) -> bool {
    model.is_a(2, 0)
        && model.is_a(2, 1)
        && model.is_a(1, 1)
        && !model.is_a(0, 2)
        && !model.is_a(3, 0)
        && !model.is_a(4, 0)
}

/// Whether these are j and k, which join P with itself and with N.
fn are_the_kinds(kinds: &[LinkKind]) -> bool {
    let [j, k] = kinds else {
        return false;
    };
    j.name.text() == "j"
        && (j.from, j.to) == (3, 3)
        && k.name.text() == "k"
        && (k.from, k.to) == (3, 0)
}

/// Whether an element has this name, this type, this system and this condition, and these values.
fn is_element(
    element: &Element,
    name: &str,
    of_type: u16,
    system: Option<u16>,
    when: &str,
    values: &[&str],
) -> bool {
    element.name.text() == name
        && element.of_type == of_type
        && element.system == system
        && outermost(&element.when) == when
        && are_words(element.attributes.list(), values)
}

fn are_the_elements(elements: &[Element]) -> bool {
    let [p, x, y] = elements else {
        return false;
    };
    is_element(p, "p", 3, None, "true", &[])
        && is_element(x, "x", 0, Some(1), "A", &["one"])
        && is_element(y, "y", 2, Some(0), "!", &["1", "2", "3"])
}

/// Whether the elements are found by their names, and no other is.
fn are_found(model: &Model) -> bool {
    model.element_no("p") == Some(0)
        && model.element_no("y") == Some(2)
        && model.element_no("z") == None
}

/// Whether this is the one link, of the kind k from p to y.
fn is_the_link(links: &[Link]) -> bool {
    let [link] = links else {
        return false;
    };
    (link.kind, link.from, link.to) == (1, 0, 2) && outermost(&link.when) == "&"
}

/// Whether these are s, which is initial, and t with both labels.
fn are_the_states(states: &[State]) -> bool {
    let [s, t] = states else {
        return false;
    };
    s.name.text() == "s"
        && s.initial
        && s.labels.list().is_empty()
        && t.name.text() == "t"
        && !t.initial
        && t.labels.list() == [1, 0].as_slice()
}

/// Whether a transition leads from one state to another, with this action and this condition.
fn is_transition(step: &Transition, from: u16, to: u16, action: &str, when: &str) -> bool {
    (step.from, step.to) == (from, to)
        && step.action.text() == action
        && outermost(&step.when) == when
}

fn are_the_transitions(transitions: &[Transition]) -> bool {
    let [go, back] = transitions else {
        return false;
    };
    is_transition(go, 0, 1, "go", "B") && is_transition(back, 1, 0, "back", "true")
}

fn are_the_systems(systems: &[System]) -> bool {
    let [first, second] = systems else {
        return false;
    };
    (first.element, second.element) == (2, 1)
        && are_the_states(first.states.list())
        && are_the_transitions(first.transitions.list())
        && second.states.list().len() == 1
        && second.transitions.list().is_empty()
}

/// The first part of the whole model that is not as it stands in its bundle, and no text where each is.
fn first_difference(model: &Model) -> &'static str {
    if !are_the_types(model.types()) || !are_above(model) {
        return "types";
    }
    if !are_the_kinds(model.kinds()) || !are_names(model.labels(), &["bad", "good"]) {
        return "kinds or labels";
    }
    if !are_the_elements(model.elements()) || !are_found(model) {
        return "elements";
    }
    if !is_the_link(model.links()) {
        return "links";
    }
    if !are_the_systems(model.systems()) {
        return "systems";
    }
    ""
}

#[test]
fn a_whole_model_is_read_as_it_stands(rt: HostRuntime) -> Result<(), Fail> {
    let model = read(rt.alloc(), WHOLE)?;
    assert_eq!(rt; first_difference(&model), "");
    Ok(())
}

/// How many types, kinds, labels, elements, links and systems a model has.
fn counts(model: &Model) -> (usize, usize, u16, usize, usize, usize) {
    (
        model.types().len(),
        model.kinds().len(),
        model.labels().count(),
        model.elements().len(),
        model.links().len(),
        model.systems().len(),
    )
}

#[test]
fn a_bundle_without_a_table_of_a_model_has_an_empty_model(rt: HostRuntime) -> Result<(), Fail> {
    for bundle in ["{}", "[]", "{\"model\":7}", "{\"model\":{}}"] {
        let model = read(rt.alloc(), bundle)?;
        assert!(rt; counts(&model) == (0, 0, 0, 0, 0, 0), "{bundle}");
    }
    Ok(())
}
