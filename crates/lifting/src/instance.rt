//! The lifted case of templates.

ghost use Rattle.std.specs.Prelude.{◌≡◌, ◌≤◌, ◌^◌, [], None, length, codes, true, IfOk, IfErr, OnOk};
ghost use Rattle.meaning.specs.Texts.{is_text};
ghost use Rattle.meaning.specs.CaseReading.{bad_names};
ghost use Rattle.lifted_case.specs.CaseContents.{BreaksNoRule, TextsAreJoined};
ghost use Rattle.meaning.specs.Templates as meaning;
ghost use Rattle.worlds.specs.Algebra.{Kept};
ghost use Rattle.annotated_model.specs.ModelFacts.{NamesFeatures};
ghost use Rattle.lifting.specs.Stops.{Halts};
ghost use Rattle.lifting.specs.Sites.{templates_of, AddsFirst};
ghost use Rattle.lifting.specs.LiftedInstances.{IsLiftedInstance};
ghost use Rattle.lifting.specs.FittingTemplates.{TemplatesFit, HaveNoSolutions};
ghost use Rattle.lifting.specs.Overflows.{TooManyEntries};

use crate::growing::Growing;
use crate::lift::{element_count, lift_first};
use crate::stop::LiftStop;
use annotated_model::Model;
use cond_text::{NameStop, Names};
use doc_tree::{NoMemory, Row, Word};
use lifted_case::Lifted;
use std::alloc::Global;
use templates::{Template, Templates};
use worlds::Worlds;

/// The most entries of a case.
const MOST_ENTRIES: u32 = 32_768;

/// The number of all template nodes.
fn node_count(templates: &[Template]) -> usize
    requires { meaning.node_count (templates_of templates.now) ≤ 2 ^ 16 }
    ensures { result ≡ meaning.node_count (templates_of templates.now) }
{
    let mut count = 0;
    'templates: for template in templates {
        count += template.nodes.list().len();
    }
    count
}

/// The same names again.
fn copied(alloc: Global, names: &Names) -> Result<Names, NoMemory>
    ensures { IfOk result (λ copy. copy ≡ names.now) }
{
    let mut copy = Names::new(alloc);
    'names: for number in 0..names.count() {
        match copy.add(names.name(number)) {
            Ok(_) => (),
            Err(NameStop::Repeated(_)) => unreachable!(),
            Err(NameStop::NoMemory) => return Err(NoMemory),
        }
    }
    Ok(copy)
}

/// Lifts the first node of the last template, if there is one.
fn lift_last<W: Worlds>(
    alloc: Global,
    model: &Model,
    templates: &[Template],
    valid: W::C,
    out: &mut Growing<W::C>,
    w: &mut W,
) -> Result<(), LiftStop>
    requires names { NamesFeatures (W.algebra w.old).count model.now }
    requires fit { TemplatesFit (templates_of templates.now) }
    requires live { (W.algebra w.old).live valid }
    requires nodes { out.old.nodes.items ≡ [] }
    requires left { out.old.left ≡ 32768 }
    ensures kept { Kept (W.algebra w.old) (W.algebra w.new) }
    ensures adds { OnOk result (AddsFirst (W.algebra w.new) model.now (templates_of templates.now) (meaning.node_count (templates_of templates.now)) (meaning.last_template (templates_of templates.now)) (codes "0") [] ((W.algebra w.old).holds valid) None out.old out.new) }
    ensures stops { IfErr result (Halts (W.algebra w.old) (W.algebra w.new) (TooManyEntries (W.algebra w.new) model.now (templates_of templates.now))) }
{
    // The numbers of elements are small, so that no two keys are equal.
    let _elements = element_count(model);
    let levels = node_count(templates);
    match templates.last() {
        None => Ok(()),
        Some(last) => lift_first(
            alloc,
            model,
            templates,
            levels,
            last,
            "0",
            &[],
            valid,
            None,
            out,
            w,
        ),
    }
}

/// The case that the templates give on the model of each world. No template may have a solution.
///
/// Its contents break no rule of case files where the title is a text and the features are at most 256 names, and its texts are joined.
pub fn instantiate<W: Worlds>(
    alloc: Global,
    title: &str,
    features: &Names,
    model: &Model,
    templates: &Templates,
    w: &mut W,
) -> Result<Lifted<W::C>, LiftStop>
    requires names { NamesFeatures (W.algebra w.old).count model.now }
    requires unsolved { HaveNoSolutions templates.now }
    ensures kept { Kept (W.algebra w.old) (W.algebra w.new) }
    ensures lifted { IfOk result (IsLiftedInstance (W.algebra w.new) title.now features.now model.now templates.now) }
    ensures contents { IfOk result (λ case. is_text title.now ≡ true → bad_names features.now ≡ [] → length features.now ≤ 256 → BreaksNoRule case) }
    ensures texts { IfOk result TextsAreJoined }
    ensures stops { IfErr result (Halts (W.algebra w.old) (W.algebra w.new) (TooManyEntries (W.algebra w.new) model.now templates.now)) }
{
    // The names and the attributes of the elements are texts, and these are few.
    let _types = model.types();
    let valid = w.always();
    let title = Word::of(alloc, title)?;
    let features = copied(alloc, features)?;
    let mut out = Growing {
        nodes: Vec::new(alloc),
        relations: Vec::new(alloc),
        left: MOST_ENTRIES,
    };
    lift_last(alloc, model, templates.list(), valid, &mut out, w)?;
    Ok(Lifted {
        title,
        features,
        valid,
        nodes: Row::of(out.nodes),
        relations: Row::of(out.relations),
        systems: Row::of(Vec::new(alloc)),
    })
}
