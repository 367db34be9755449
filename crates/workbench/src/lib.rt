//! The workbench: the one call that reads the words and the files, and answers.
//!
//! [`run`] promises what the record `Promise` of `meaning` says at the stage `building_cases` of `specs/BuildingStage.antt`, for every list of
//! words, every shelf, every pair of sinks and shut diagrams. `build` writes the case of a bundle whose templates have no solution, with its
//! conditions made in diagrams, `derive` the text of a case file, whoever wrote it, at a configuration, and `product` the text of the
//! templates on the configuration's own model. Each refusal has its cause, and the first one is told: of the words, of reading the files in
//! their order, of the first file, of the configuration, of the world that it names, of the node limit, and of the size of the case. `LimitMet`
//! of `meaning` is the cause of a reached node limit.
//! By `Leaves` the diagrams are at the end open exactly where `open_after` says so: `build` opens them once its bundle has kept its rules, with
//! the limit of the words and the number of features of the line, and want of memory alone may come before or after.
//! A case that `build` wrote derives, for every configuration file, to the same bytes or refusal as the product of its bundle:
//! `derive_agrees_with_product` of `proofs/DerivedProducts.antt`. Two builds of one bundle file print the same bytes, whatever node limit each had:
//! `builds_print_the_same` of `proofs/SameCases.antt`.
//!
//! It is made of small steps, each with its contract: the words, the files, the document of a bundle with its line, model and templates, the
//! case over diagrams and its bytes, the case over one world, the world of a configuration, the case at that world and its text, the output.
//!
//! Stands on `outside` for files and sinks, on `doc_tree`, `cond_text`, `feature_model`, `annotated_model`, `path_queries`, `templates` and
//! `lifted_case` for what the files say, on `conditions` for diagrams, on `lifting` for cases, on `case_derive`, `gsn` and `case_text` for the
//! text of one product, and on `meaning`; `specs/Run.antt`, `specs/Limits.antt` and `specs/Readings.antt` have the words of its contracts.
#![tactic(auto)]

mod building;
mod bundle;
mod bundle_rules;
mod derived_text;
mod documents;
mod files;
mod product_text;
mod status;
mod tasks;
mod texts;
mod top;
mod words;
mod world;

pub use status::Status;
pub use top::run;
