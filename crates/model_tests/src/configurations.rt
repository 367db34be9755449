//! Configurations: that they are read.

use crate::lines::read;
use doc_tree::from_json;
use feature_model::{ConfigStop, Line, read_config};
use std::alloc::Global;
use std::test::Fail;

/// The features R, A and B.
const ALTERNATIVES: &str =
    r#"{"line":{"features":[{"name":"R"},{"name":"A","parent":"R","kind":"alternative"},{"name":"B","parent":"R","kind":"alternative"}]}}"#;

/// Whether a text is a configuration with this world.
fn is_world(alloc: Global, line: &Line, text: &str, want: &[bool]) -> Result<bool, Fail> {
    let doc = from_json(alloc, text.as_bytes())?;
    match read_config(alloc, &doc, line.features()) {
        Ok(world) => Ok(world.list() == want),
        Err(_) => Ok(false),
    }
}

/// Whether a text is no configuration for this reason.
fn is_stop(alloc: Global, line: &Line, text: &str, want: ConfigStop) -> Result<bool, Fail> {
    let doc = from_json(alloc, text.as_bytes())?;
    match read_config(alloc, &doc, line.features()) {
        Ok(_) => Ok(false),
        Err(stop) => Ok(stop == want),
    }
}

#[test]
fn a_configuration_names_the_true_features(rt: HostRuntime) -> Result<(), Fail> {
    let line = read(rt.alloc(), ALTERNATIVES)?;
    let none = r#"{"features":[]}"#;
    let root = r#"{"features":["R"]}"#;
    let turned = r#"{"features":["B","R"]}"#;
    let all = r#"{"features":["A","B","R"],"more":1}"#;
    assert!(rt; is_world(rt.alloc(), &line, none, &[false, false, false])?);
    assert!(rt; is_world(rt.alloc(), &line, root, &[true, false, false])?);
    assert!(rt; is_world(rt.alloc(), &line, turned, &[true, false, true])?);
    assert!(rt; is_world(rt.alloc(), &line, all, &[true, true, true])?);
    Ok(())
}

#[test]
fn what_is_no_table_is_no_configuration(rt: HostRuntime) -> Result<(), Fail> {
    let line = read(rt.alloc(), ALTERNATIVES)?;
    assert!(rt; is_stop(rt.alloc(), &line, "7", ConfigStop::NotList)?);
    assert!(rt; is_stop(rt.alloc(), &line, r#"["R"]"#, ConfigStop::NotList)?);
    Ok(())
}
