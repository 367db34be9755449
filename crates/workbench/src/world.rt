//! From the bytes of a configuration to the world that it names.

ghost use Rattle.std.specs.Prelude.{◌≡◌, IfOk, IfErr, length};
ghost use Rattle.meaning.specs.Configurations.{World};
ghost use Rattle.meaning.specs.Answers.{configured};
ghost use Rattle.doc_tree.specs.View.{document};
ghost use Rattle.workbench.specs.Readings.{StopsConfiguration, IsTableOf, StopsTable};

use crate::documents::read_document;
use crate::status::Status;
use cond_text::Names;
use doc_tree::{Doc, DocStop, Row};
use feature_model::read_config;
use std::alloc::Global;

/// The world that the configuration in a file of this name names: a truth value for each feature.
pub fn read_world(
    alloc: Global,
    name: &str,
    bytes: &[u8],
    features: &Names,
) -> Result<Row<bool>, Status>
    ensures world { IfOk result (λ w. configured features.now name.now bytes.now ≡ World w) }
    ensures each_feature { IfOk result (λ w. length w ≡ length features.now) }
    ensures stopped { IfErr result (StopsConfiguration (configured features.now name.now bytes.now)) }
{
    let table = read_table(alloc, name, bytes)?;
    let world = read_config(alloc, &table, features)?;
    Ok(world)
}

/// The document that the bytes are, which has to be a table.
fn read_table(alloc: Global, name: &str, bytes: &[u8]) -> Result<Doc, Status>
    ensures table { IfOk result (λ d. IsTableOf name.now bytes.now (document d)) }
    ensures stopped { IfErr result (StopsTable name.now bytes.now) }
{
    match read_document(alloc, name, bytes) {
        Ok(table) => {
            if table.is_table() {
                Ok(table)
            } else {
                Err(Status::BadConfig(1, 0))
            }
        }
        Err(DocStop::NotDocument) => Err(Status::BadConfig(1, 0)),
        Err(DocStop::NoMemory) => Err(Status::NoMemory),
    }
}
