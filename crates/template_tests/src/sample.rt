//! The bundle that the tests read.

ghost use Rattle.std.specs.Prelude.{◌≡◌, length, IfOk};
ghost use Rattle.annotated_model.specs.ModelFacts.{NamesFeatures};

use annotated_model::Model;
use cond_text::Names;
use doc_tree::from_json;
use std::alloc::Global;
use std::test::Fail;

/// Elements 0 to 3: a, b where A, c, and d of the type below where B. Links k from a to b and on to c, and links l from c to a and to d.
///
/// A template with a parameter, a nested strategy and every kind of check, and one that uses it.
pub const BUNDLE: &str = r#"{"model":{
    "types":[
        {"name":"N","attributes":["a"]},
        {"name":"M","parent":"N","attributes":["b"]},
        {"name":"S","attributes":["c"],"system":true}],
    "kinds":[{"name":"k","from":"N","to":"N"},{"name":"l","from":"N","to":"N"}],
    "labels":["bad"],
    "elements":[
        {"name":"a","type":"N","attributes":{"a":"one"}},
        {"name":"b","type":"N","when":"A","attributes":{"a":"two"}},
        {"name":"c","type":"N","attributes":{"a":""}},
        {"name":"d","type":"M","when":"B","attributes":{"a":"one","b":""}}],
    "links":[
        {"kind":"k","from":"a","to":"b"},
        {"kind":"k","from":"b","to":"c"},
        {"kind":"l","from":"c","to":"a"},
        {"kind":"l","from":"c","to":"d"}]},
    "templates":[
    {"name":"T","params":[{"name":"x","type":"N"}],"nodes":[
        {"id":"g","kind":"goal","text":"{x.name} is {{{x.a}}}"},
        {"id":"c","kind":"context","under":"g","text":"c"},
        {"id":"s","kind":"strategy","under":"g","text":"over {#}","each":"z: S with x [k] z, z.c = 'v'","guard":"w: N"},
        {"id":"h","kind":"goal","under":"s","text":"{z.c}","undeveloped":false},
        {"id":"e","kind":"solution","under":"h","text":"","check":{"never":"bad","of":"z"}},
        {"id":"d","kind":"solution","under":"h","text":"d","check":{"deadlock":"z"}},
        {"id":"n","kind":"solution","under":"h","text":"n","check":{"none":"v: S with x [k] v"}},
        {"id":"o","kind":"solution","under":"h","text":"o","check":{"some":"with x [k] z"}}]},
    {"name":"Top","nodes":[
        {"id":"g","kind":"goal","text":"top"},
        {"id":"t","kind":"strategy","under":"g","text":"t","each":"y: N, m: M"},
        {"id":"u","kind":"use","under":"t","template":"T","args":["m"]},
        {"id":"l","kind":"goal","under":"t","text":"later","undeveloped":true}]}]}"#;

/// The features A and B.
fn features(alloc: Global) -> Result<Names, Fail>
    ensures { IfOk result (λ names. length names ≡ 2) }
{
    let mut names = Names::new(alloc);
    names.add("A")?;
    names.add("B")?;
    Ok(names)
}

/// The model of the bundle.
pub fn model(alloc: Global) -> Result<Box<Model>, Fail>
    ensures { IfOk result (λ m. NamesFeatures 2 m.value) }
{
    let bundle = from_json(alloc, BUNDLE.as_bytes())?;
    let features = features(alloc)?;
    Ok(Box::new(alloc, Model::read(alloc, &bundle, &features)?)?)
}
