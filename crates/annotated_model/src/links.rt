//! The links between elements.

ghost use Rattle.std.specs.Prelude.{◌≡◌, ◌≢◌, ◌≤◌, [], map, codes, true, IfOk, IfErr, IfSome, is_some, Some};
ghost use Rattle.std.specs.List.{enumerate_from};
ghost use Rattle.meaning.specs.Texts.{place_of};
ghost use Rattle.meaning.specs.Documents.{text_at};
ghost use Rattle.meaning.specs.BundlePlaces.{member_within, faults_at, Links};
ghost use Rattle.meaning.specs.Models as meaning;
ghost use Rattle.meaning.specs.ModelRules as model_rules;
ghost use Rattle.doc_tree.specs.View.{document, documents};
ghost use Rattle.annotated_model.specs.Faults.{IsFirst, faults_here};
ghost use Rattle.annotated_model.specs.Known.{Knows};
ghost use Rattle.annotated_model.specs.Links as links;
ghost use Rattle.annotated_model.specs.Parts.{links_in, link_faults};
ghost use Rattle.annotated_model.specs.View.{link_view};

use crate::ancestry::is_a;
use crate::condition::read_condition;
use crate::data::Link;
use crate::fault::{ModelStop, Place};
use crate::known::Known;
use crate::texts::{CONDITION_LIMIT, member_within};
use cond_text::Names;
use doc_tree::{Doc, Part, Row};
use std::alloc::Global;

/// The most links of a model.
const LINK_LIMIT: usize = 16_384;

/// The numbers of a link's kind and of the elements at its ends.
#[derive(Clone, Copy)]
struct Ends {
    kind: u16,
    from: u16,
    to: u16,
}

fn link_has_form(link: &Doc) -> bool
    ensures { result ≡ model_rules.link_has_form (document link.now) }
{
    link.is_table()
        && link.needs_text("kind")
        && link.needs_text("from")
        && link.needs_text("to")
        && link.may_have_text("when")
}

/// The rules of form at a link of this number.
fn check_form(place: Place, no: usize, link: &Doc) -> Result<(), ModelStop>
    ensures within { IfOk result (λ _. member_within 4096 (codes "when") (document link.now) ≡ true) }
    ensures few { IfOk result (λ _. no ≢ 16384) }
    ensures none { IfOk result (λ _. model_rules.link_form (no, document link.now) ≡ []) }
    ensures fault { IfErr result (IsFirst (faults_here place (model_rules.link_form (no, document link.now)))) }
{
    place.require(2, link_has_form(link))?;
    place.require(4, member_within(CONDITION_LIMIT, "when", link))?;
    place.require(6, no != LINK_LIMIT)
}

/// The kind and the ends that a link names, if they are known.
fn find_ends(known: &Known, link: &Doc) -> Option<Ends>
    ensures known { is_some result ≡ links.knows_ends known.now (document link.now) }
    ensures kind { IfSome result (λ e. place_of (text_at (codes "kind") (document link.now)) known.now.kind_names ≡ Some e.kind) }
    ensures from { IfSome result (λ e. place_of (text_at (codes "from") (document link.now)) known.now.element_names ≡ Some e.from) }
    ensures to { IfSome result (λ e. place_of (text_at (codes "to") (document link.now)) known.now.element_names ≡ Some e.to) }
{
    let kind = known.kind_names.find(link.text_at("kind"))?;
    let from = known.element_names.find(link.text_at("from"))?;
    let to = known.element_names.find(link.text_at("to"))?;
    Some(Ends { kind, from, to })
}

/// Whether an element is of the type that a link kind has at an end, or of one below it.
fn fits_end(known: &Known, element: u16, end: u16) -> bool
    ensures { result ≡ links.fits_end known.now (Some element) (Some end) }
{
    match known.elements.list().get(usize::from(element)) {
        Some(found) => is_a(known.types.list(), found.of_type, end),
        None => true,
    }
}

/// Whether both ends are of the types of the kind.
fn ends_fit(known: &Known, ends: Ends) -> bool
    ensures { result ≡ links.fit_kind known.now (Some ends.kind) (Some ends.from) (Some ends.to) }
{
    match known.kinds.list().get(usize::from(ends.kind)) {
        Some(kind) => fits_end(known, ends.from, kind.from) && fits_end(known, ends.to, kind.to),
        None => true,
    }
}

/// The kind and the ends of a link.
fn read_ends(known: &Known, place: Place, link: &Doc) -> Result<Ends, ModelStop>
    ensures kind { IfOk result (λ e. place_of (text_at (codes "kind") (document link.now)) known.now.kind_names ≡ Some e.kind) }
    ensures from { IfOk result (λ e. place_of (text_at (codes "from") (document link.now)) known.now.element_names ≡ Some e.from) }
    ensures to { IfOk result (λ e. place_of (text_at (codes "to") (document link.now)) known.now.element_names ≡ Some e.to) }
    ensures none { IfOk result (λ _. links.end_rules known.now (document link.now) ≡ []) }
    ensures fault { IfErr result (IsFirst (faults_here place (links.end_rules known.now (document link.now)))) }
{
    match find_ends(known, link) {
        Some(ends) => {
            place.require(18, ends_fit(known, ends))?;
            Ok(ends)
        }
        None => Err(place.broken_at(17, 0)),
    }
}

/// The link of this number.
fn read_link(
    alloc: Global,
    features: &Names,
    known: &Known,
    no: usize,
    link: &Doc,
) -> Result<Link, ModelStop>
    requires { no ≤ 16384 }
    ensures value { IfOk result (λ l. link_view l ≡ meaning.link_of features.now known.now.kind_names known.now.element_names (document link.now)) }
    ensures few { IfOk result (λ _. no ≢ 16384) }
    ensures none { IfOk result (λ _. faults_at Links no 0 (links.link_rules features.now known.now (no, document link.now)) ≡ []) }
    ensures fault { IfErr result (IsFirst (faults_at Links no 0 (links.link_rules features.now known.now (no, document link.now)))) }
{
    let place = Place {
        part: Part::Links,
        item: no as u32,
        sub: 0,
    };
    check_form(place, no, link)?;
    let when = read_condition(alloc, features, place, link)?;
    let ends = read_ends(known, place, link)?;
    Ok(Link {
        kind: ends.kind,
        from: ends.from,
        to: ends.to,
        when,
    })
}

fn read_items(
    alloc: Global,
    features: &Names,
    known: &Known,
    items: &[Doc],
) -> Result<Vec<Link>, ModelStop>
    ensures value { IfOk result (λ v. map link_view v.items ≡ map (meaning.link_of features.now known.now.kind_names known.now.element_names) (documents items.now)) }
    ensures none { IfOk result (λ _. links.link_faults_from features.now known.now (enumerate_from 0 (documents items.now)) ≡ []) }
    ensures fault { IfErr result (IsFirst (links.link_faults_from features.now known.now (enumerate_from 0 (documents items.now)))) }
{
    let mut links = Vec::new(alloc);
    'items: for (no, item) in items.iter().enumerate() {
        links.push(read_link(alloc, features, known, no, item)?)?;
    }
    Ok(links)
}

/// The links of a model table, over what its earlier parts gave.
pub fn read_links(
    alloc: Global,
    features: &Names,
    known: &Known,
    model: &Doc,
) -> Result<Row<Link>, ModelStop>
    requires { Knows known.now features.now (document model.now) }
    ensures value { IfOk result (λ links. map link_view links ≡ links_in features.now (document model.now)) }
    ensures none { IfOk result (λ _. link_faults features.now (document model.now) ≡ []) }
    ensures fault { IfErr result (IsFirst (link_faults features.now (document model.now))) }
{
    let place = Place {
        part: Part::Links,
        item: 0,
        sub: 0,
    };
    place.require(2, model.may_have_list("links"))?;
    Ok(Row::of(read_items(alloc, features, known, model.list_at("links"))?))
}
