//! The systems that the tests explore, each with the features R, A and B.

ghost use Rattle.std.specs.Prelude.{◌≡◌, length, IfOk};
ghost use Rattle.annotated_model.specs.ModelFacts.{NamesFeatures};

use annotated_model::Model;
use cond_text::Names;
use doc_tree::from_json;
use std::alloc::Global;
use std::test::Fail;

/// A run to the state `bad` where A is false.
pub const SLIP: &str =
    r#"{"model":{"types":[{"name":"N","system":true}],"labels":["bad"],"elements":[{"name":"c","type":"N"}],"systems":[{"element":"c",
    "states":[{"name":"s0","initial":true},{"name":"s1"},{"name":"s2"},{"name":"bad","labels":["bad"]}],
    "transitions":[{"from":"s0","to":"s1","action":"go"},{"from":"s1","to":"s2","action":"go"},{"from":"s1","to":"bad","action":"slip","when":"!A"}]}]}}"#;

/// Two initial states; `end` is reached by one transition where A is, and by two over either of two ways, the later one in the list first;
/// a circle back to the start; a state that no product reaches.
pub const WAYS: &str =
    r#"{"model":{"types":[{"name":"N","system":true}],"elements":[{"name":"c","type":"N"}],"systems":[{"element":"c",
    "states":[{"name":"end"},{"name":"left"},{"name":"right","initial":true},{"name":"start","initial":true},{"name":"lost"}],
    "transitions":[
        {"from":"left","to":"end","action":"a"},
        {"from":"start","to":"end","action":"b","when":"A"},
        {"from":"start","to":"left","action":"c"},
        {"from":"right","to":"left","action":"d","when":"B"},
        {"from":"end","to":"start","action":"e"},
        {"from":"start","to":"lost","action":"f","when":"A & !A"},
        {"from":"lost","to":"lost","action":"g"}]}]}}"#;

/// Two ways to `bad` of the same length, the first transition into it from the state that the second transition reaches.
pub const FORK: &str =
    r#"{"model":{"types":[{"name":"N","system":true}],"labels":["bad","start"],"elements":[{"name":"c","type":"N"}],"systems":[{"element":"c",
    "states":[{"name":"s0","initial":true,"labels":["start"]},{"name":"a"},{"name":"b"},{"name":"bad","labels":["bad"]}],
    "transitions":[{"from":"s0","to":"b","action":"x"},{"from":"s0","to":"a","action":"y"},{"from":"a","to":"bad","action":"z"},{"from":"b","to":"bad","action":"w"}]}]}}"#;

/// One state, which is left where A or B is.
pub const HALT: &str =
    r#"{"model":{"types":[{"name":"N","system":true}],"elements":[{"name":"c","type":"N"}],"systems":[{"element":"c",
    "states":[{"name":"s0","initial":true}],
    "transitions":[{"from":"s0","to":"s0","action":"p","when":"A"},{"from":"s0","to":"s0","action":"q","when":"B"}]}]}}"#;

/// Two states `bad` at the distance 2 where B is, the greater number first in the list, and one at the distance 1 where A is.
pub const NEAR: &str =
    r#"{"model":{"types":[{"name":"N","system":true}],"labels":["bad"],"elements":[{"name":"c","type":"N"}],"systems":[{"element":"c",
    "states":[{"name":"s0","initial":true},{"name":"s1"},{"name":"b2","labels":["bad"]},{"name":"b3","labels":["bad"]},{"name":"b4","labels":["bad"]}],
    "transitions":[{"from":"s0","to":"s1","action":"go"},{"from":"s1","to":"b3","action":"go","when":"B"},{"from":"s1","to":"b2","action":"go","when":"B"},
        {"from":"s0","to":"b4","action":"go","when":"A"}]}]}}"#;

/// No transition at all.
pub const STILL: &str =
    r#"{"model":{"types":[{"name":"N","system":true}],"elements":[{"name":"c","type":"N","when":"A"}],"systems":[{"element":"c",
    "states":[{"name":"on","initial":true},{"name":"off"}],"transitions":[]}]}}"#;

/// An element that is never there.
pub const NEVER: &str =
    r#"{"model":{"types":[{"name":"N","system":true}],"elements":[{"name":"c","type":"N","when":"A & !A"}],"systems":[{"element":"c",
    "states":[{"name":"on","initial":true},{"name":"off"}],"transitions":[{"from":"on","to":"off","action":"t"}]}]}}"#;

/// The features R, A and B.
fn features(alloc: Global) -> Result<Names, Fail>
    ensures { IfOk result (λ names. length names ≡ 3) }
{
    let mut names = Names::new(alloc);
    names.add("R")?;
    names.add("A")?;
    names.add("B")?;
    Ok(names)
}

/// The model of a bundle.
pub fn model(alloc: Global, bundle: &str) -> Result<Box<Model>, Fail>
    ensures { IfOk result (λ m. NamesFeatures 3 m.value) }
{
    let bundle = from_json(alloc, bundle.as_bytes())?;
    let features = features(alloc)?;
    Ok(Box::new(alloc, Model::read(alloc, &bundle, &features)?)?)
}
